// Faults, and the first of them.
ghost use Rattle.std.specs.Prelude.{◌≡◌};
ghost use Rattle.c_type_rules.specs.Faults.{is_before, noted};

use fq_core::Span;

/// What is wrong, by its code, and the place of the token where.
#[derive(Clone, Copy, Debug, PartialEq, Eq)]
pub struct Found {
    pub span: Span,
    pub code: u16,
}

fn is_before(a: Found, b: Found) -> bool
    ensures { result ≡ is_before a b }
{
    if a.span.file != b.span.file {
        a.span.file < b.span.file
    } else if a.span.start != b.span.start {
        a.span.start < b.span.start
    } else {
        a.code < b.code
    }
}

/// The first of the fault that was the first so far, if there was one, and another.
pub(crate) fn noted(first: Option<Found>, next: Found) -> Option<Found>
    ensures { result ≡ noted first next }
{
    match first {
        None => Some(next),
        Some(old) => {
            if is_before(next, old) {
                Some(next)
            } else {
                Some(old)
            }
        }
    }
}
