// Counts by pair (02, E9): for each pair of source and destination the transfers taken and failed, in a table of 64 records that its
// user lends.
#![tactic(auto, unfolding(crate::specs::Counts::up, crate::specs::Counts::raise, crate::specs::Counts::in_use, crate::specs::Table::opened, crate::specs::Table::is_of))]

ghost use Rattle.std.specs.Prelude.{◌≡◌, Option, Result, Ok, Err, position, take};
ghost use Rattle.pairs.specs.Counts.{up, raise, in_use};
ghost use Rattle.pairs.specs.Table.{is_of, opened, counting, count_in, ask_of, book_of};

pub mod hear;

pub const RECORDS: usize = 64;

// How many transfers were taken, and how many failed.
#[derive(Clone, Copy, Default)]
pub struct Tally {
    pub taken: u32,
    pub failed: u32,
}

// One record of the table: source, destination, and their transfers.
#[derive(Clone, Copy, Default)]
pub struct Pair {
    pub qq: u8,
    pub zz: u8,
    pub tally: Tally,
}

// What is known of the transfer under way: its owner, as far as the lines have told, whether that was told taken, whether an answer was
// handed out.
#[derive(Clone, Copy)]
pub struct UnderWay {
    pub owner: Option<u8>,
    pub told: bool,
    pub answered: bool,
}

// What is kept beside the table, which is lent and has 64 records (02, E9): how many of its records are in use, all pairs that have none, the transfer under way.
#[derive(Clone, Copy)]
pub struct Counts {
    pub used: usize,
    pub others: Tally,
    pub current: UnderWay,
}

// A transfer that has ended: its pair, and whether it counts as taken.
#[derive(Clone, Copy)]
pub struct Transfer {
    pub qq: u8,
    pub zz: u8,
    pub taken: bool,
}

// A slot as it was heard: the counts before it, the transfer under way after it, and the transfer that its free line ended.
#[derive(Clone, Copy)]
pub struct Heard {
    pub before: Counts,
    pub current: UnderWay,
    pub freed: Option<Transfer>,
}

// A table of another length than 64 was lent: nothing is changed, and the counts are given back as they were.
#[derive(Clone, Copy)]
pub struct OtherLength {
    pub counts: Counts,
}

#[derive(Clone, Copy)]
pub enum AskError {
    // 20: the pair has no record of its own.
    NoRecord,
    // It was lent a table of another length than 64.
    OtherLength,
}

// A table of its own, with its counts; no map: 02, E9 asks for 64 records in order of their first free line.
#[derive(Clone, Copy)]
pub struct Book {
    pub counts: Counts,
    pub table: [Pair; RECORDS],
}

// One more, up to the greatest number.
fn up(n: u32) -> u32
    ensures { result ≡ up n }
{
    n.saturating_add(1)
}

impl Tally {
    // One transfer more.
    fn raise(&mut self, taken: bool)
        ensures { self.new ≡ raise self.old taken }
    {
        if taken {
            self.taken = up(self.taken);
        } else {
            self.failed = up(self.failed);
        }
    }
}

impl Transfer {
    // A new record, with this as its first transfer.
    fn opened(self) -> Pair
        ensures { result ≡ opened self }
    {
        let mut tally = Tally::default();
        tally.raise(self.taken);
        Pair {
            qq: self.qq,
            zz: self.zz,
            tally,
        }
    }
}

impl Counts {
    // How many records are in use: never more than there are.
    fn in_use(self) -> usize
        ensures { result ≡ in_use self }
    {
        self.used.min(RECORDS)
    }
}

// The place of a pair's record among those in use.
fn find(used: &[Pair], qq: u8, zz: u8) -> Option<usize>
    ensures { result ≡ position (λ p. is_of p qq zz) used.now }
{
    used.iter().position(|p| p.qq == qq && p.zz == zz)
}

// What a slot told is counted: at the pair's record, at a new one, or among the others where there is no place.
pub fn count(table: &mut [Pair], h: Heard) -> Result<Counts, OtherLength>
    ensures { counting table.new result ≡ count_in table.old h }
{
    let mut counts = h.before;
    if table.len() != RECORDS {
        return Err(OtherLength { counts });
    }
    counts.current = h.current;
    let Some(x) = h.freed else {
        return Ok(counts);
    };
    let n = counts.in_use();
    if let Some(at) = find(&table[..n], x.qq, x.zz) {
        table[at].tally.raise(x.taken);
    } else if n < RECORDS {
        table[n] = x.opened();
        counts.used = n + 1;
    } else {
        counts.others.raise(x.taken);
    }
    Ok(counts)
}

// A pair's counts: the table is read from its beginning, and no further than to the pair's record.
pub fn ask(table: &[Pair], c: Counts, qq: u8, zz: u8) -> Result<Tally, AskError>
    ensures { result ≡ ask_of table.now c qq zz }
{
    if table.len() != RECORDS {
        return Err(AskError::OtherLength);
    }
    match find(&table[..c.in_use()], qq, zz) {
        Some(at) => Ok(table[at].tally),
        None => Err(AskError::NoRecord),
    }
}

// The counts of all pairs that have no record.
pub fn ask_others(c: Counts) -> Tally
    ensures { result ≡ c.others }
{
    c.others
}

impl Book {
    // The records in use.
    pub fn records(&self) -> &[Pair]
        ensures { result.now ≡ take (in_use self.now.counts) self.now.table }
    {
        &self.table[..self.counts.in_use()]
    }

    // What a slot told is counted in the book's own table, which has the right length.
    pub fn count(&mut self, h: Heard)
        ensures { self.new ≡ book_of (count_in self.old.table h) }
    {
        self.counts = match count(&mut self.table, h) {
            Ok(counts) => counts,
            Err(refused) => refused.counts,
        };
    }
}
