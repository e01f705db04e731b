// What is shown of settings: the rows of the newest block of a good file, in their order, each as a line. Which row is which is said in specs/Rows.antt.
ghost use Rattle.std.specs.Prelude.{◌≡◌, true, ◌<◌, ◌≤◌, length};
ghost use Rattle.model.specs.Layout as Layout;
ghost use Rattle.sheet.specs.Rows as Rows;

use model::{Entry, layout};
use settings::entries::Entries;
use settings::file::newest;
use std::io;

#[derive(Clone, Copy)]
pub enum Row {
    Version(u8),
    Line(u8),
    Divider(u8),
    Site(u8),
    Label,
    Processor(Entry),
}

// How many rows stand before those of the processors: version, line and divider; with a site; with a label too.
const BARE_ROWS: u8 = 3;

const SITED_ROWS: u8 = 4;

const LABELLED_ROWS: u8 = 5;

// These and 14 processors.
const MOST_ROWS: u8 = 19;

#[tactic(auto, using(crate::proofs::Laws::tests), unfolding(crate::specs::Rows::head_rows))]
fn head_rows(version: u8) -> u8
    ensures { result ≡ Rows.head_rows version }
{
    if version < layout::SITED {
        return BARE_ROWS;
    }
    if version < layout::LABELLED {
        return SITED_ROWS;
    }
    LABELLED_ROWS
}

#[tactic(auto, using(crate::proofs::Shown::heads))]
fn head_row(block: &[u8], number: u8) -> Row
    requires { (Layout.is_good (Layout.of_block block.now) ≡ true) × (number < Rows.head_rows (Layout.version_of block.now)) }
    ensures { result ≡ Rows.head_row block.now number }
{
    match number {
        0 => Row::Version(block[layout::VERSION]),
        1 => Row::Line(block[layout::LINE]),
        2 => Row::Divider(block[layout::DIVIDER]),
        3 => Row::Site(block[layout::SITE]),
        _ => Row::Label,
    }
}

#[tactic(auto, using(crate::proofs::Shown::showing))]
fn entry_row(block: &[u8], number: u8) -> Option<Row>
    requires { Layout.is_good (Layout.of_block block.now) ≡ true }
    ensures { result ≡ Rows.entry_row block.now number }
{
    Entries::of(block)
        .nth(usize::from(number))
        .map(Row::Processor)
}

// A row of a good block, by its number from 0 on, if there are so many.
#[tactic(auto, using(crate::proofs::Shown::showing))]
fn row_at(block: &[u8], number: u8) -> Option<Row>
    requires { Layout.is_good (Layout.of_block block.now) ≡ true }
    ensures { result ≡ Rows.row_at block.now number }
{
    let heads = head_rows(block[layout::VERSION]);
    if number < heads {
        return Some(head_row(block, number));
    }
    entry_row(block, number - heads)
}

// A row of a good file is that of its newest block.
#[tactic(auto, using(crate::proofs::Shown::showing))]
fn row_of(file: &[u8], number: u8) -> Option<Row>
    requires { Layout.is_good (Layout.of_file file.now) ≡ true }
    ensures { result ≡ Rows.row_at (Layout.newest file.now) number }
{
    row_at(newest(file), number)
}

// The letters of a label, up to the first zero; `-` where it has none. They need not be text.
fn tell_letters<P: Print>(rt: &P, block: &[u8]) -> io::Result<()>
    requires { 17 ≤ length block.now }
{
    let label = &block[layout::LABEL..layout::LABELLED_HEAD];
    let end = label.iter().take_while(|b| **b != 0).count();
    if end == 0 {
        return print!(rt; "-");
    }
    rt.write_all(&label[..end])
}

fn tell_label<P: Print>(rt: &P, file: &[u8]) -> io::Result<()>
    requires { Layout.is_good (Layout.of_file file.now) ≡ true }
{
    let block = newest(file);
    print!(rt; "label ")?;
    if layout::LABELLED_HEAD <= block.len() {
        tell_letters(rt, block)?;
    }
    println!(rt; "")
}

fn tell_processor<P: Print>(rt: &P, entry: Entry) -> io::Result<()> {
    let name = entry.name;
    let priority = entry.priority;
    let w = entry.w;
    let address = entry.address;
    println!(rt; "processor {name} priority {priority} W {w} at {address}")
}

fn tell_row<P: Print>(rt: &P, file: &[u8], row: Row) -> io::Result<()>
    requires { Layout.is_good (Layout.of_file file.now) ≡ true }
{
    match row {
        Row::Version(value) => println!(rt; "version {value}"),
        Row::Line(value) => println!(rt; "line {value}"),
        Row::Divider(value) => println!(rt; "divider {value}"),
        Row::Site(value) => println!(rt; "site {value}"),
        Row::Label => tell_label(rt, file),
        Row::Processor(entry) => tell_processor(rt, entry),
    }
}

// The rows of a good file, from the first on.
pub fn tell_rows<P: Print>(rt: &P, file: &[u8]) -> io::Result<()>
    requires { Layout.is_good (Layout.of_file file.now) ≡ true }
{
    for number in 0..MOST_ROWS {
        let Some(row) = row_of(file, number) else {
            break;
        };
        tell_row(rt, file, row)?;
    }
    Ok(())
}
