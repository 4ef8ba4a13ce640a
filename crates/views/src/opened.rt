// A flash whose view is known, and the table and the pointer block that are read.
ghost use Rattle.std.specs.Prelude.{◌≡◌, IfOk, IfErr};
ghost use Rattle.rules.specs.Bytes.{block};
ghost use Rattle.rules.specs.Answers.{given, refused};
ghost use Rattle.rules.specs.Copies.{view as view_of};
ghost use Rattle.rules.specs.Table.{entries};
ghost use Rattle.views.specs.Located.{Located};

use entries::Entries;
use places::PointerBlock;
use rules::{Refusal, Setting, View};
use slots::Table;

// The bytes of a flash, what is said of it beside them, and where things are by its view.
#[derive(Clone, Copy)]
pub struct Opened<'a> {
    pub image: &'a [u8],
    pub setting: Setting,
    pub view: View,
    pub ghost seen: { view_of setting image.now ≡ given view },
    pub ghost inside: { Located image.now view },
}

impl<'a> Opened<'a> {
    // The table read.
    pub fn table(&self) -> Table<'a>
        ensures { result ≡ block self.now.image.now self.now.view.table }
    {
        Table::new(fields::block_at(self.image, self.view.table))
    }

    // Its entries, for who asks no slot's number: those of a table are counted for that.
    pub fn entries(&self) -> Entries<'a>
        ensures { result ≡ entries (block self.now.image.now self.now.view.table) }
    {
        Entries::counted(fields::block_at(self.image, self.view.table))
    }

    // The pointer block read.
    pub fn pointers(&self) -> PointerBlock<'a>
        ensures { result ≡ block self.now.image.now self.now.view.pointers }
    {
        place_walks::pointer_block(fields::block_at(self.image, self.view.pointers))
    }
}

// Refusals 1, 2, 3, 50 or 51, and 5, or the flash with its view.
pub fn open(image: &[u8], setting: Setting) -> Result<Opened<'_>, Refusal>
    ensures given { IfOk result (λ flash. (flash.image.now ≡ image.now) × (flash.setting ≡ setting)) }
    ensures refused { IfErr result (λ why. view_of setting image.now ≡ refused why) }
{
    let view = super::view(image, setting)?;
    Ok(Opened {
        image,
        setting,
        view,
    })
}
