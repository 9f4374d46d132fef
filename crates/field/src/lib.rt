// One field of a record judged: missing, of a wrong shape, or not in its register.
#![tactic(auto)]

ghost use Rattle.std.specs.Prelude.{◌≡◌};
ghost use Rattle.field.specs.Checks.{field_check, refused};

use crate::fault::{Cause, FieldFault};
use crate::shape::{is_filler, is_shaped};
use layout::field::Field;
use octets::class::is_blank;
use octets::line::Line;
use register::five::Registers;

pub mod facts;
pub mod fault;
pub mod shape;
pub mod symbol;

fn refuse(cause: Cause, field: &Field) -> Result<(), FieldFault>
    ensures { result ≡ refused cause field.now }
{
    Err(FieldFault {
        cause,
        column: field.start(),
    })
}

// A field's own bytes against its row of the layout: first whether it is missing, then its shape, then its register.
pub fn check_field<R: Registers>(
    bytes: Line<'_>,
    field: &Field,
    registers: &R,
) -> Result<(), FieldFault>
    ensures { result ≡ field_check (R.Registers.holds registers.now) field.now bytes.entry.bytes.now }
{
    let kind = field.kind();
    if !is_filler(kind) && is_blank(bytes.bytes()) {
        return if field.is_required() {
            refuse(Cause::Missing, field)
        } else {
            Ok(())
        };
    }
    if !is_shaped(kind, bytes) {
        return refuse(Cause::Shape, field);
    }
    if !registers.has(field.register(), bytes.bytes()) {
        return refuse(Cause::Unknown, field);
    }
    Ok(())
}
