// A walk over a certificate's extensions.
ghost use Rattle.std.specs.Prelude.{◌≡◌, option_copied};
ghost use Rattle.x509_views.specs.Walk.{all_extensions, left_of};

use crate::certificate::CertView;
use crate::extension::{NamedExtension, extension};

/// A walk over extensions up to the end, or to what is no extension; no memory is taken.
#[derive(Clone, Copy)]
pub struct Extensions<'a> {
    rest: &'a [u8],
}

impl<'a> CertView<'a> {
    /// A walk over the extensions in reading order.
    pub fn each_extension(&self) -> Extensions<'a>
        ensures { left_of result ≡ all_extensions (option_copied self.now.extensions) }
    {
        Extensions {
            rest: self.extensions.unwrap_or(&[]),
        }
    }
}

impl<'a> Iterator for Extensions<'a> {
    ghost use Rattle.std.specs.Iterator.{at_most};
    ghost use Rattle.std.specs.Prelude.{length};
    ghost use Rattle.x509_views.specs.Walk.{left_of, GivesExtension};

    type Item = NamedExtension<'a>;

    ghost next_gives = { GivesExtension };

    ghost remaining = { λ walk. at_most (length (left_of walk)) };

    fn next(&mut self) -> Option<NamedExtension<'a>> {
        match extension(self.rest) {
            Ok((extension, rest)) => {
                self.rest = rest;
                Some(extension)
            }
            Err(_) => None,
        }
    }
}
