//! The four protocols that come with the product, as texts of microcode (`docs/ASSEMBLY.md`), each for eight caches and for sixteen, and
//! programs that differ from them in one word.
#![tactic(auto)]

ghost use Rattle.std.specs.Prelude.{◌≡◌};
ghost use Rattle.std.specs.Option.{option_map};
ghost use Rattle.bk_proto.specs.Sources.{source_of};

mod ei;
mod mesi;
mod moesif;
mod msi;
mod refusals;

pub use refusals::{Mutant, mutants};

/// The source of the protocol of a name: `ei`, `msi`, `mesi` or `moesif`, and of `ei16`, `msi16`, `mesi16` or `moesif16`, which is
/// `caches 16` and LF, and then that of the plain name. None for any other name.
pub fn source(name: &str) -> Option<&'static [u8]>
    ensures { option_map (λ text. text.now) result ≡ source_of name.now }
{
    match name {
        "ei" => Some(ei::SOURCE.as_bytes()),
        "msi" => Some(msi::SOURCE.as_bytes()),
        "mesi" => Some(mesi::SOURCE.as_bytes()),
        "moesif" => Some(moesif::SOURCE.as_bytes()),
        "ei16" => Some(ei::SOURCE_16.as_bytes()),
        "msi16" => Some(msi::SOURCE_16.as_bytes()),
        "mesi16" => Some(mesi::SOURCE_16.as_bytes()),
        "moesif16" => Some(moesif::SOURCE_16.as_bytes()),
        _ => None,
    }
}

#[cfg(test)]
mod tests;
