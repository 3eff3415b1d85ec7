ghost use Rattle.std.specs.Prelude.{◌≡◌, ◌≢◌, ℕ, ◌<◌, List, ◌++◌, length, Some, Ok, OnOk, OnErr, ◌↔◌, if◌then◌else◌, bytes_eq};
ghost use Rattle.eif_base.specs.TextMap.{held};
ghost use Rattle.eif_base.specs.declared.texts.ReadEnd.TheVariants.{Whole, TooLong};

use crate::memory::Memory;
use crate::texts::ReadEnd;
use std::alloc::Global;
use std::collections::BTreeMap;

/// Texts by name.
pub(crate) type TextMap = BTreeMap<String, Vec<u8>>;

/// Puts the text under the name, in place of one that stood there.
#[tactic(auto, using(std::proofs::lemmas::Map::Text::text_keys))]
pub(crate) fn put_text(
    texts: &mut TextMap,
    alloc: Global,
    name: &str,
    text: Vec<u8>,
) -> Result<(), Memory>
    ensures ok { OnOk result ((q : List ℕ) → held texts.new q ≡ (if bytes_eq q name.now then Some text.items else held texts.old q)) }
    ensures err { OnErr result (held texts.new ≡ held texts.old) }
{
    let name = String::from_str(alloc, name)?;
    texts.insert(name, text)?;
    Ok(())
}

/// Appends the text, unless it has more bytes than `most`.
pub(crate) fn append_text(text: &[u8], most: u64, into: &mut Vec<u8>) -> Result<ReadEnd, Memory>
    ensures whole { result ≡ Ok Whole → into.new.items ≡ into.old.items ++ text.now }
    ensures none { result ≢ Ok Whole → into.new.items ≡ into.old.items }
    ensures too_long { (result ≡ Ok TooLong) ↔ (most < length text.now) }
{
    if text.len() as u64 > most {
        return Ok(ReadEnd::TooLong);
    }
    into.extend_from_slice(text)?;
    Ok(ReadEnd::Whole)
}
