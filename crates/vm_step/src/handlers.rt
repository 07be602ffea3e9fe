// The handlers of exceptions.
ghost use Rattle.std.specs.Prelude.{◌≡◌, ◌==◌};
ghost use Rattle.std.specs.List.{list_any};
ghost use Rattle.vm_step.specs.Handlers as specs;

use cf_code::Row;

/// Whether a row of an exception table holds a pc.
pub fn holds(row: &Row, pc: u16) -> bool
    ensures { result ≡ specs.holds row.now pc }
{
    row.start <= pc && pc < row.end
}

/// Whether a catch type is one of those that suit.
fn is_among(catch_type: u16, suiting: &[u16]) -> bool
    ensures { result ≡ list_any (λ type. type == catch_type) suiting.now }
{
    suiting.iter().any(|ty| *ty == catch_type)
}

/// Whether a row suits an exception, by the catch types that suit it.
fn suits(row: &Row, suiting: &[u16]) -> bool
    ensures { result ≡ specs.suits row.now suiting.now }
{
    row.catch_type == 0 || is_among(row.catch_type, suiting)
}

/// The pc of the handler of the first row, in the order of the table, that holds a pc and suits an exception, by the catch
/// types that suit it (JVM Specification SE 8, 2.10).
pub fn handler_at(rows: &[Row], pc: u16, suiting: &[u16]) -> Option<u16>
    ensures { result ≡ specs.handler_at rows.now pc suiting.now }
{
    rows.iter()
        .find(|row| holds(row, pc) && suits(row, suiting))
        .map(|row| row.handler)
}
