//! The digest of a description, by which objects and images name the description that they were made for.
#![tactic(auto)]

ghost use Rattle.std.specs.Prelude.{◌≡◌, IfOk};
ghost use Rattle.sha2.specs.Sha256.{sha256};
ghost use Rattle.lisa_tree.specs.Descriptions.{description_tree};
ghost use Rattle.description_digest.specs.Digests.{digest_of};

use lisa_printer::print_description;
use lisa_tree::Description;
use lisa_words::NoMemory;
use sha2::{Digest, Sha256};
use std::alloc::Global;

fn hashed(text: &[u8]) -> [u8; 32]
    ensures { result ≡ sha256 text.now }
{
    let mut hasher = Sha256::new();
    hasher.update(text);
    hasher.finalize()
}

/// The SHA-256 digest of the description's canonical text.
pub fn digest(alloc: Global, d: &Description) -> Result<[u8; 32], NoMemory>
    ensures { IfOk result (λ bytes. bytes ≡ digest_of (description_tree d.now)) }
{
    let text = print_description(alloc, d)?;
    Ok(hashed(&text))
}
