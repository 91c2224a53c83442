// The tables by name: which block ID is which table's, and each table's row. Every size, limit and start that the code has comes from these rows.
ghost use Rattle.std.specs.Prelude.{◌≡◌, ◌+◌, ◌*◌, ◌<◌, ◌≤◌};
ghost use Rattle.image.specs.Rows.{row_at, start_of, size_of, most_of};
ghost use Rattle.image.specs.Blocks.{block_of};
ghost use Rattle.image.specs.Layout.{entry_words};
ghost use Rattle.image.specs.Placed.{RowOf};

// The tables that are carried, in the rows' order.
#[derive(Clone, Copy, PartialEq, Eq, Debug)]
pub enum Table {
    AddressLookup,
    Policing,
    VlanLookup,
    Forwarding,
    MacConfiguration,
    LookupParameters,
    ForwardingParameters,
    GeneralParameters,
    XmiiModeParameters,
    Retagging,
}

// How many there are.
pub const TABLES: usize = 10;

// Why a block ID names no table that is carried: it names another table of the manual's table 2, or nothing there.
#[derive(Clone, Copy, PartialEq, Eq, Debug)]
pub enum NoTable {
    NotCarried,
    Unknown,
}

// The table that a block ID names: a function and no TryFrom, since an ID is below 256.
#[tactic(auto, using(crate::specs::BlocksLaws::is_listed, crate::specs::BlocksLaws::not_listed), unfolding(crate::specs::Blocks::block_of))]
pub fn block_of(id: u32) -> Result<Table, NoTable>
    requires { id < 256 }
    ensures { result ≡ block_of id }
{
    match id {
        0x05 => Ok(Table::AddressLookup),
        0x06 => Ok(Table::Policing),
        0x07 => Ok(Table::VlanLookup),
        0x08 => Ok(Table::Forwarding),
        0x09 => Ok(Table::MacConfiguration),
        0x0D => Ok(Table::LookupParameters),
        0x0E => Ok(Table::ForwardingParameters),
        0x11 => Ok(Table::GeneralParameters),
        0x4E => Ok(Table::XmiiModeParameters),
        0x12 => Ok(Table::Retagging),
        0..=0x12 => Err(NoTable::NotCarried),
        _ => Err(NoTable::Unknown),
    }
}

// The table of a place in the rows. It can't fail, so it is no Option: a place that no row has is never asked for, and gets the first table.
pub fn table_at(place: usize) -> Table
    ensures { result ≡ (row_at place).table }
{
    match place {
        0 => Table::AddressLookup,
        1 => Table::Policing,
        2 => Table::VlanLookup,
        3 => Table::Forwarding,
        4 => Table::MacConfiguration,
        5 => Table::LookupParameters,
        6 => Table::ForwardingParameters,
        7 => Table::GeneralParameters,
        8 => Table::XmiiModeParameters,
        9 => Table::Retagging,
        _ => Table::AddressLookup,
    }
}

// A table's row: its place in the rows, where its entries start in the image, the words of an entry, the most entries that it takes.
#[derive(Clone, Copy)]
pub struct Row {
    pub place: usize,
    pub start: usize,
    pub size: usize,
    pub most: usize,
}

// One row a line: a literal with its four names would take six.
fn row_with(place: usize, start: usize, size: usize, most: usize) -> Row
    ensures { (result.place ≡ place) × (result.start ≡ start) × (result.size ≡ size) × (result.most ≡ most) }
{
    Row {
        place,
        start,
        size,
        most,
    }
}

pub fn row_of(table: Table) -> Row
    ensures { RowOf table result }
{
    match table {
        Table::AddressLookup => row_with(0, 0, 3, 1024),
        Table::Policing => row_with(1, 3072, 2, 45),
        Table::VlanLookup => row_with(2, 3162, 2, 4096),
        Table::Forwarding => row_with(3, 11354, 2, 13),
        Table::MacConfiguration => row_with(4, 11380, 7, 5),
        Table::LookupParameters => row_with(5, 11415, 1, 1),
        Table::ForwardingParameters => row_with(6, 11416, 3, 1),
        Table::GeneralParameters => row_with(7, 11419, 10, 1),
        Table::XmiiModeParameters => row_with(8, 11429, 1, 1),
        Table::Retagging => row_with(9, 11430, 2, 32),
    }
}

// Where entry i of a table starts in the image; the entry behind its last one would start where the next table does.
pub fn entry_at(table: Table, i: usize) -> usize
    requires { i ≤ most_of table }
    ensures { (result ≡ start_of table + i * size_of table) × (result ≤ entry_words) }
{
    let row = row_of(table);
    row.start + i * row.size
}
