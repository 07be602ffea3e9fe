// How many bytes an entry of the pool takes (JVM Specification SE 8, 4.4).
ghost use Rattle.std.specs.Prelude.{◌≡◌, ◌<◌, ◌^◌, length};
ghost use Rattle.cf_pool.specs.Spelling.{entry_text};
ghost use Rattle.cf_pool.specs.ModifiedUtf8.{encoded_unit, encoded_units};

use cf_pool::PoolEntry;

#[tactic(auto, unfolding(cf_pool::specs::ModifiedUtf8::encoded_unit))]
fn unit_size(unit: u16) -> u64
    ensures { result ≡ length (encoded_unit unit) }
{
    match unit {
        0x01..=0x7f => 1,
        0..=0x7ff => 2,
        _ => 3,
    }
}

/// In modified UTF-8 (4.4.7).
fn units_size(units: &[u16]) -> u64
    requires { length (encoded_units units.now) < 2 ^ 64 }
    ensures { result ≡ length (encoded_units units.now) }
{
    let mut size = 0;
    for unit in units {
        size += unit_size(*unit);
    }
    size
}

/// An entry of the pool with its tag. What stands at an index without an entry takes none.
pub fn entry_size(entry: &PoolEntry) -> u64
    requires { length (entry_text entry.now) < 2 ^ 64 }
    ensures { result ≡ length (entry_text entry.now) }
{
    match entry {
        PoolEntry::Utf8(units) => 3 + units_size(units.as_slice()),
        PoolEntry::Class(_) | PoolEntry::Str(_) | PoolEntry::MethodType(_) => 3,
        PoolEntry::MethodHandle(_, _) => 4,
        PoolEntry::Integer(_) | PoolEntry::Float(_) | PoolEntry::InvokeDynamic(_, _) => 5,
        PoolEntry::Field(_, _) | PoolEntry::Method(_, _) => 5,
        PoolEntry::InterfaceMethod(_, _) | PoolEntry::NameAndType(_, _) => 5,
        PoolEntry::Long(_) | PoolEntry::Double(_) => 9,
        PoolEntry::Unusable => 0,
    }
}
