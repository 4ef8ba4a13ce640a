// The six commands, started on a lent image that is only read: a job, or a refusal.
#![tactic(auto)]

mod beginning; // the job that a draft stands for

ghost use Rattle.std.specs.Prelude.{◌≡◌, IfOk, length};
ghost use Rattle.rules.specs.Bytes.{block_size};
ghost use Rattle.rules.specs.Commands.{enable, disable, rename, create, delete, repair};
ghost use Rattle.commands.specs.Begins.{command_of, start_answer};
ghost use Rattle.drafts.specs.Inner.Drafted.{job_of, Sound};

use drafts::Draft;
use jobs::Job;
use pointer_commands::{disabling, enabling};
use rules::{Refusal, Setting, SlotNo};
use table_commands::{creating, deleting, renaming};
use views::opened;

// What is asked of a flash. The new name of a slot is lent beside it; a new slot is created with a length.
#[derive(Clone, Copy, Debug, PartialEq, Eq)]
pub enum Command {
    Enable(SlotNo),
    Disable(SlotNo),
    Rename(SlotNo),
    Create(u32),
    Delete(SlotNo),
    Repair,
}

// Any of the commands; only a rename and a create look at the name.
pub fn start(image: &[u8], setting: Setting, command: Command, name: &[u8]) -> Result<Job, Refusal>
    ensures { result ≡ start_answer setting image.now (command_of command name.now) }
{
    let mut room = blocks::bytes::erased_block();
    let draft = draft_command(image, setting, command, name, &mut room)?;
    Ok(beginning::begin(image, draft, &room))
}

// The same as a draft, for whoever puts the job elsewhere and needs no copy of it.
#[tactic(auto, unfolding(crate::specs::Begins::command_of))]
pub fn draft_command(
    image: &[u8],
    setting: Setting,
    command: Command,
    name: &[u8],
    room: &mut [u8],
) -> Result<Draft, Refusal>
    requires { length room.old ≡ block_size }
    ensures job { job_of image.now room.new result
        ≡ start_answer setting image.now (command_of command name.now) }
    ensures sound { IfOk result (λ d. Sound image.now d) }
{
    let flash = opened::open(image, setting)?;
    match command {
        Command::Enable(slot) => enabling::enable_by(&flash, slot, room),
        Command::Disable(slot) => disabling::disable_by(&flash, slot, room),
        Command::Rename(slot) => renaming::rename_by(&flash, slot, name, room),
        Command::Create(size) => creating::create_by(&flash, name, size, room),
        Command::Delete(slot) => deleting::delete_by(&flash, slot, room),
        Command::Repair => Ok(repair_command::repair_by(&flash)),
    }
}

// Enable a slot: it comes first in the boot order.
#[tactic(auto, unfolding(crate::specs::Begins::command_of))]
pub fn start_enable(image: &[u8], setting: Setting, slot: SlotNo) -> Result<Job, Refusal>
    ensures { result ≡ start_answer setting image.now (enable slot.0) }
{
    start(image, setting, Command::Enable(slot), b"")
}

// Disable a slot: it leaves the boot order.
#[tactic(auto, unfolding(crate::specs::Begins::command_of))]
pub fn start_disable(image: &[u8], setting: Setting, slot: SlotNo) -> Result<Job, Refusal>
    ensures { result ≡ start_answer setting image.now (disable slot.0) }
{
    start(image, setting, Command::Disable(slot), b"")
}

// Rename a slot.
#[tactic(auto, unfolding(crate::specs::Begins::command_of))]
pub fn start_rename(
    image: &[u8],
    setting: Setting,
    slot: SlotNo,
    name: &[u8],
) -> Result<Job, Refusal>
    ensures { result ≡ start_answer setting image.now (rename slot.0 name.now) }
{
    start(image, setting, Command::Rename(slot), name)
}

// Create a slot of a length: it comes last in the table, at the lowest start that is free and that no place holds.
#[tactic(auto, unfolding(crate::specs::Begins::command_of))]
pub fn start_create(image: &[u8], setting: Setting, name: &[u8], size: u32) -> Result<Job, Refusal>
    ensures { result ≡ start_answer setting image.now (create name.now size) }
{
    start(image, setting, Command::Create(size), name)
}

// Delete a slot that is not in the boot order: its row goes, and the slots after it are one number lower.
#[tactic(auto, unfolding(crate::specs::Begins::command_of))]
pub fn start_delete(image: &[u8], setting: Setting, slot: SlotNo) -> Result<Job, Refusal>
    ensures { result ≡ start_answer setting image.now (delete slot.0) }
{
    start(image, setting, Command::Delete(slot), b"")
}

// Repair: where a pair disagrees, the copy not read becomes the copy read.
#[tactic(auto, unfolding(crate::specs::Begins::command_of))]
pub fn start_repair(image: &[u8], setting: Setting) -> Result<Job, Refusal>
    ensures { result ≡ start_answer setting image.now repair }
{
    start(image, setting, Command::Repair, b"")
}
