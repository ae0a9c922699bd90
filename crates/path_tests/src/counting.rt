// A judge of signatures that counts how often it is asked.
use command_files::TableProvider;
use sigstore_keys::{CryptoProvider, SigningScheme};
use std::cell::Cell;

/// It answers as a table does.
#[derive(Drop)]
pub struct CountingProvider<'a> {
    table: &'a TableProvider,
    asked: Cell<u64>,
}

impl<'a> CountingProvider<'a> {
    pub fn new(table: &'a TableProvider) -> CountingProvider<'a> {
        CountingProvider {
            table,
            asked: Cell::new(0),
        }
    }

    fn count(&self) {
        self.asked.set(self.asked.get().saturating_add(1));
    }

    pub fn asked(&self) -> u64 {
        self.asked.get()
    }
}

impl<'a> CryptoProvider for CountingProvider<'a> {
    ghost accepts = { λ p. ⟦<TableProvider as CryptoProvider>⟧.accepts p.table.now };

    fn verify_raw(
        &self,
        scheme: SigningScheme,
        key: &[u8],
        message: &[u8],
        signature: &[u8],
    ) -> bool {
        self.count();
        self.table.verify_raw(scheme, key, message, signature)
    }

    fn verify_prehashed(
        &self,
        scheme: SigningScheme,
        key: &[u8],
        digest: &[u8],
        signature: &[u8],
    ) -> bool {
        self.count();
        self.table.verify_prehashed(scheme, key, digest, signature)
    }
}
