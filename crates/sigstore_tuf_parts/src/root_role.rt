// Whether a document meets a role of a root.
ghost use Rattle.std.specs.Prelude.{◌≡◌, ◌≢◌, Ok, Err, IfErr, OnOk};
ghost use Rattle.sigstore_keys.specs.Crypto.{crypto_by};
ghost use Rattle.sigstore_tuf_parts.specs.RootRoles.{meets_role_of};

use crate::document::Metadata;
use crate::root::Root;
use sigstore_keys::CryptoProvider;
use sigstore_tuf_text::Error;
use sigstore_types_parts::{Armor, Text};
use std::alloc::Global;

impl<T> Metadata<T> {
    /// Whether enough keys of the role of that name in a root signed this document. Errors:
    /// `UnknownRole` where the root has no such role, else as `verify_threshold`.
    #[tactic(auto, unfolding(crate::specs::RootRoles::meets_role_of))]
    pub fn verify_role<C: CryptoProvider, M: Armor>(
        &self,
        alloc: Global,
        provider: &C,
        armor: &M,
        root: &Root,
        name: &str,
    ) -> Result<(), Error>
        ensures ok { OnOk result
            (meets_role_of (crypto_by C.CryptoProvider M.Armor provider.now armor.now)
            root.now name.now self.now ≡ Ok tt) }
        ensures err { IfErr result (λ e. e ≢ Error.NoMemory →
            meets_role_of (crypto_by C.CryptoProvider M.Armor provider.now armor.now)
            root.now name.now self.now ≡ Err e) }
    {
        match root.role(name) {
            Some(role) => self.verify_threshold(alloc, provider, armor, &root.keys, role, name),
            None => Err(Error::UnknownRole {
                name: Text::new(alloc, name)?,
            }),
        }
    }
}
