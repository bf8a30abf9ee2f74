//! Rows of a lasting name each, and what has it in the present journal.

ghost use Rattle.std.specs.Prelude.{◌≡◌, ◌^◌, true};
ghost use Rattle.ada_lasting.specs.Naming.{found};
ghost use Rattle.ada_lasting.specs.internal.Keeping.{rises_between};
ghost use Rattle.ada_lasting.specs.internal.NamesBack.{named_by};
ghost use Rattle.ada_lasting.specs.internal.Awaiting.{first_name};

/// A lasting name, and the number in the present journal of what has it.
#[derive(Clone, Copy, Debug, Default, PartialEq, Eq)]
pub struct Row {
    pub lasting: u64,
    pub present: u32,
}

/// What has a lasting name. The lasting names of the rows rise.
pub(crate) fn find(rows: &[Row], lasting: u64) -> Option<u32>
    requires { rises_between 0 (2 ^ 64) rows.now ≡ true }
    ensures { result ≡ found rows.now lasting }
{
    match rows.binary_search_by_key(&lasting, |row| row.lasting) {
        Ok(at) => Some(rows[at].present),
        Err(_) => None,
    }
}

/// What has a lasting name, looked for at this row first. The lasting names of the rows rise.
#[inline(always)]
pub(crate) fn find_near(rows: &[Row], likely: usize, lasting: u64) -> Option<u32>
    requires { rises_between 0 (2 ^ 64) rows.now ≡ true }
    ensures { result ≡ found rows.now lasting }
{
    match rows.get(likely) {
        Some(row) if row.lasting == lasting => Some(row.present),
        _ => find(rows, lasting),
    }
}

/// The lasting name of what has this number in the present journal.
#[tactic(auto, unfolding(crate::specs::internal::NamesBack::named_by))]
pub(crate) fn name_of(rows: &[Row], present: u32) -> Option<u64>
    ensures { result ≡ named_by rows.now present }
{
    for row in rows {
        if row.present == present {
            return Some(row.lasting);
        }
    }
    None
}

/// The first lasting name that is a number or more. The lasting names of the rows rise.
#[tactic(auto, unfolding(crate::specs::internal::Awaiting::first_name))]
pub(crate) fn first_name(rows: &[Row], from: u64) -> Option<u64>
    ensures { result ≡ first_name rows.now from }
{
    for row in rows {
        if row.lasting >= from {
            return Some(row.lasting);
        }
    }
    None
}
