//! Fields of protobuf: read leniently, as its libraries do, and written in one way.
//!
//! Reading takes any order of fields, varints longer than they need be, and passes over what nobody asks for. Writing takes
//! shortest varints. docs/RULES.md, "Fields of protobuf", says both. The canonical readers take what is written in one way
//! alone. Nothing here takes memory.
#![tactic(auto)]

mod canonical;
mod fields;
mod laws;
mod spelling;
mod tags;
mod values;
mod varints;

pub use canonical::{
    begins_part, canonical_bytes, canonical_laws, canonical_number, canonical_part,
    put_canonical_number,
};
pub use fields::{Field, are_fields, bytes_or, field_at, last_bytes, last_number, number_or};
pub use laws::{field_laws, varint_laws};
pub use spelling::{field_size, put_field, put_number};
pub use values::Value;
pub use varints::{number_at, put_varint, varint_size};
