// Document 01's book for the programs that try the commands on real bytes: what a flash reads as, and the change that
// each finished command makes.
#![tactic(auto)]

ghost use Rattle.std.specs.Prelude.{◌≡◌};
ghost use Rattle.rules.specs.Copies.{pairs_agree};
ghost use Rattle.rules.specs.Book.{reading};
ghost use Rattle.commands.specs.Begins.{command_of};
ghost use Rattle.book_entries.specs.Tables.{new_name};
ghost use Rattle.book.specs.Kept.{reading_of, read_as, same_reading, same_answer, taken, deleted};

use book_orders::{Change, Order};
use commands::Command;
use rules::{Refusal, Setting, SlotNo};

// A reading: the table copy read, and the boot order.
#[derive(Clone, Copy)]
pub struct Book {
    pub table: [u8; rules::BLOCK_SIZE],
    pub order: Order,
}

// The reading of a flash, or the refusal.
#[tactic(auto, unfolding(crate::specs::Kept::read_as, crate::specs::Kept::reading_of, book_orders::specs::Orders::slots_of))]
pub fn read_book(image: &[u8], setting: Setting) -> Result<Book, Refusal>
    ensures { read_as result ≡ reading setting image.now }
{
    let mut row = book_orders::no_slots();
    let count = reading::order_list(image, setting, &mut row)?;
    let table = book_entries::block_of(reading::table_read(image, setting));
    Ok(Book {
        table,
        order: Order { row, count },
    })
}

// The flash reads as the book says.
#[tactic(auto, unfolding(crate::specs::Kept::read_as, crate::specs::Kept::same_answer))]
pub fn reads_as(read: Result<Book, Refusal>, book: Book) -> bool
    ensures { result ≡ same_answer (read_as read) (reading_of book) }
{
    match read {
        Err(_) => false,
        Ok(kept) => same_book(kept, book),
    }
}

#[tactic(auto, unfolding(crate::specs::Kept::reading_of, crate::specs::Kept::same_reading))]
pub fn same_book(a: Book, b: Book) -> bool
    ensures { result ≡ same_reading (reading_of a) (reading_of b) }
{
    book_entries::same_bytes(&a.table, &b.table) && book_orders::same_order(a.order, b.order)
}

// The book after a finished command on a flash; every rename and every create is to the same name. A create looks at the
// flash for the start of the new slot.
pub fn booked(book: Book, command: Command, image: &[u8], setting: Setting) -> Book
    ensures { reading_of result ≡ taken setting image.now (command_of command new_name) (reading_of book) }
{
    let table = book.table;
    let order = book.order;
    match command {
        Command::Enable(slot) => with_order(table, book_orders::with_first(order, slot)),
        Command::Disable(slot) => with_order(
            table,
            book_orders::changed(order, Change::Without(slot)),
        ),
        Command::Rename(slot) => with_order(book_entries::renamed(table, slot), order),
        Command::Create(size) => {
            with_order(
                book_entries::with_new_slot(table, image, setting, size),
                order,
            )
        }
        Command::Delete(slot) => deleted(book, slot),
        Command::Repair => book,
    }
}

// The book without a slot; as it was where its table has no such slot.
fn deleted(book: Book, slot: SlotNo) -> Book
    ensures { reading_of result ≡ deleted slot.0 (reading_of book) }
{
    let table = book.table;
    let order = book.order;
    if !book_entries::has_slot(table, slot) {
        return book;
    }
    with_order(
        book_entries::without_slot(table, slot),
        book_orders::changed(order, Change::Lowered(slot)),
    )
}

fn with_order(table: [u8; rules::BLOCK_SIZE], order: Order) -> Book
    ensures { result ≡ record { table = table; order = order } }
{
    Book { table, order }
}

// The flash can be read and both its pairs agree. With a copy read, both copies stand if they are equal.
#[tactic(auto, unfolding(drafts::specs::Inner::Asked::copies_equal), using(crate::proofs::ReadBack::none_agree, crate::proofs::ReadBack::agree_by_copies))]
pub fn pairs_agree(image: &[u8], setting: Setting) -> bool
    ensures { result ≡ pairs_agree setting image.now }
{
    match views::view(image, setting) {
        Err(_) => false,
        Ok(v) => {
            copies::same_blocks(image, v.spt0, v.spt1) & copies::same_blocks(image, v.cpb0, v.cpb1)
        }
    }
}
