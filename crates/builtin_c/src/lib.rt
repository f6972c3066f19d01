// The built-in types for a host in C or Rust, on plain numbers and bytes. A slice is a pointer and then a length.
#![tactic(auto)]

ghost use Rattle.std.specs.Prelude.{◌≡◌, length};
ghost use Rattle.builtin_c.specs.Told.{component_told, kind_told, laid_over, name_told, oid_told};
ghost use Rattle.type_info.specs.Table.{array_of, by_name, by_oid};

use type_info::builtin;
use type_info::builtin::BuiltInKind;
use type_info::oid::Oid;

// 1 for a simple type, 2 for a pseudo type, 3 for an array, 4 for a range, 0 where the OID is not built in.
#[unsafe(no_mangle)]
pub extern "C" fn builtin_kind(oid: u32) -> u32
    ensures { result ≡ kind_told (by_oid oid) }
{
    builtin::by_oid(Oid(oid)).map_or(0, |entry| match entry.kind() {
        BuiltInKind::Simple => 1,
        BuiltInKind::Pseudo => 2,
        BuiltInKind::Array(_) => 3,
        BuiltInKind::Range(_) => 4,
    })
}

// The element type of an array or the subtype of a range; 0 where there is none.
#[unsafe(no_mangle)]
pub extern "C" fn builtin_component(oid: u32) -> u32
    ensures { result ≡ component_told (by_oid oid) }
{
    builtin::by_oid(Oid(oid)).map_or(0, |entry| match entry.kind() {
        BuiltInKind::Simple | BuiltInKind::Pseudo => 0,
        BuiltInKind::Array(of) | BuiltInKind::Range(of) => of.0,
    })
}

// The built-in array type over an element type; 0 where there is none.
#[unsafe(no_mangle)]
pub extern "C" fn builtin_array_of(element: u32) -> u32
    ensures { result ≡ oid_told (array_of element) }
{
    builtin::array_of(Oid(element)).map_or(0, |entry| entry.oid().0)
}

// How many bytes the name has; 0 where the OID is not built in.
#[unsafe(no_mangle)]
pub extern "C" fn builtin_name_length(oid: u32) -> usize
    ensures { result ≡ length (name_told (by_oid oid)) }
{
    builtin::by_oid(Oid(oid)).map_or(0, |entry| entry.name().len())
}

// Copies the name to the start of `buffer` and tells its length. A shorter buffer is left as it was.
#[unsafe(no_mangle)]
pub extern "C" fn builtin_name(oid: u32, buffer: &mut [u8]) -> usize
    ensures told { result ≡ length (name_told (by_oid oid)) }
    ensures after { buffer.new ≡ laid_over (name_told (by_oid oid)) buffer.old }
{
    let Some(entry) = builtin::by_oid(Oid(oid)) else {
        return 0;
    };
    let name = entry.name();
    let length = name.len();
    if length <= buffer.len() {
        buffer[..length].copy_from_slice(name);
    }
    length
}

// The OID of a built-in type by its name; 0 where no built-in type has it.
#[unsafe(no_mangle)]
pub extern "C" fn builtin_oid(name: &[u8]) -> u32
    ensures { result ≡ oid_told (by_name name.now) }
{
    builtin::by_name(name).map_or(0, |entry| entry.oid().0)
}
