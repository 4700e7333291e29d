// What a rule takes from a reduced term: a constructor's field, Quot.mk's element.
#![tactic(auto)]

ghost use Rattle.fields.specs.Fields.{Reduced, ConstantAt, FieldAt, QuotMade};

use rows::kinds::Kind;
use rows::{Ptr, row_at, shape_of};
use spine::{argument, head_of};
use tables::{Decl, DeclKind, Role, decl_at};

// The declaration of a head that is a constant, and the count of arguments.
fn constant_at<'a>(
    library: &'a [u32],
    decls: &[u32],
    scratch: &'a [u32],
    q: Ptr,
) -> Option<(Decl, u32)>
    requires { Reduced library.now decls.now scratch.now q }
    ensures { ConstantAt library.now decls.now scratch.now q result }
{
    let s = head_of(library, scratch, q);
    let w = shape_of(row_at(library, scratch, s.head.row));
    if w.kind != Kind::Constant.into() {
        return None;
    }
    Some((decl_at(decls, w.first.row), s.count))
}

// Projection: "a constructor with an argument at parameters + index".
pub fn field_at<'a>(
    library: &'a [u32],
    decls: &[u32],
    scratch: &'a [u32],
    q: Ptr,
    index: u32,
) -> Option<Ptr>
    requires { Reduced library.now decls.now scratch.now q }
    ensures { FieldAt library.now decls.now scratch.now q index result }
{
    let (d, count) = constant_at(library, decls, scratch, q)?;
    if d.kind != Some(DeclKind::Constructor) {
        return None;
    }
    // no argument stands past the largest u32
    let at = d.parameters.checked_add(index)?;
    if count <= at {
        return None;
    }
    Some(argument(library, scratch, q, count, at))
}

// Quotients: "Quot.mk with exactly 3 arguments", the third.
pub fn quot_made<'a>(library: &'a [u32], decls: &[u32], scratch: &'a [u32], q: Ptr) -> Option<Ptr>
    requires { Reduced library.now decls.now scratch.now q }
    ensures { QuotMade library.now decls.now scratch.now q result }
{
    let (d, count) = constant_at(library, decls, scratch, q)?;
    if d.role != Some(Role::QuotMk) {
        return None;
    }
    if count != 3 {
        return None;
    }
    Some(argument(library, scratch, q, count, 2))
}
