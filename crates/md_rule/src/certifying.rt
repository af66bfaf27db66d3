//! The kind of certificates by which an attempt joins the history.

use std::marker::Brand;

/// A kind of certificates, which each call of `Pass::ready` picks. Every certificate is of the kind
/// `Brand`.
pub trait Certifying {
    ghost use Rattle.std.specs.Prelude.{List};
    ghost use Rattle.md_machine.specs.declared.certificate.Certificate.{Certificate};

    ghost by: { List Certificate → Type 0 };
}

impl Certifying for Brand {
    ghost by = { λ cs. Unit {0} };
}
