use sd_case::{Answer, Refusal, bytes_of, key_of, kind_of, number};
use sd_key::{Key, KeyFault, Pattern, clean, has_part, matches, shard_of};
use std::alloc::Global;
use std::cmp::Ordering;

/// The word of an order.
fn order_word(order: Ordering) -> &'static str {
    match order {
        Ordering::Less => "less",
        Ordering::Equal => "equal",
        Ordering::Greater => "greater",
    }
}

/// `clean NAME`: its key.
pub(crate) fn clean_name(alloc: Global, name: &str, out: &mut Answer) -> Result<(), Refusal> {
    match clean(&bytes_of(alloc, name)?) {
        Ok(key) => out.bytes(key.as_slice()),
        Err(KeyFault::Empty) => out.text("fault: empty"),
        Err(KeyFault::Long { len }) => out.count("fault: long ", len as u64),
    }
    Ok(())
}

/// `shard_of KEY SHARDS`: its shard.
pub(crate) fn shard_of_key(
    alloc: Global,
    key: &str,
    shards: &str,
    out: &mut Answer,
) -> Result<(), Refusal> {
    let shards = number::<u16>(shards)?;
    if shards == 0 {
        return Err(Refusal::Condition);
    }
    out.number(i128::from(shard_of(&key_of(alloc, key)?, shards)));
    Ok(())
}

/// `matches PATTERN KEY`: whether it does.
pub(crate) fn matches_key(
    alloc: Global,
    pattern: &str,
    key: &str,
    out: &mut Answer,
) -> Result<(), Refusal> {
    let Some(pattern) = Pattern::of(&bytes_of(alloc, pattern)?) else {
        return Err(Refusal::Malformed);
    };
    out.yes_or_no(matches(&pattern, &key_of(alloc, key)?));
    Ok(())
}

/// `has_part KEY PART`: whether the part stands in it.
pub(crate) fn has_part_of(
    alloc: Global,
    key: &str,
    part: &str,
    out: &mut Answer,
) -> Result<(), Refusal> {
    let part = bytes_of(alloc, part)?;
    out.yes_or_no(has_part(&key_of(alloc, key)?, &part));
    Ok(())
}

/// `key TEXT`: how long the key with these bytes is, whether it is empty, and the bytes of its clone.
pub(crate) fn key_with(alloc: Global, text: &str, out: &mut Answer) -> Result<(), Refusal> {
    let Some(key) = Key::of(&bytes_of(alloc, text)?) else {
        out.text("none");
        return Ok(());
    };
    show_name(key.len(), key.is_empty(), key.clone()?.as_slice(), out);
    Ok(())
}

/// `pattern TEXT`: how long the pattern with these bytes is, whether it is empty, and the bytes of its clone.
pub(crate) fn pattern_with(alloc: Global, text: &str, out: &mut Answer) -> Result<(), Refusal> {
    let Some(pattern) = Pattern::of(&bytes_of(alloc, text)?) else {
        out.text("none");
        return Ok(());
    };
    show_name(
        pattern.len(),
        pattern.is_empty(),
        pattern.clone()?.as_slice(),
        out,
    );
    Ok(())
}

/// Appends a length, whether it is none, and the bytes.
fn show_name(len: usize, is_empty: bool, bytes: &[u8], out: &mut Answer) {
    out.count("len ", len as u64);
    out.text(", empty ");
    out.yes_or_no(is_empty);
    out.text(", ");
    out.bytes(bytes);
}

/// `compare_keys KEY KEY`: their order.
pub(crate) fn compare_keys(
    alloc: Global,
    left: &str,
    right: &str,
    out: &mut Answer,
) -> Result<(), Refusal> {
    let left = key_of(alloc, left)?;
    out.text(order_word(left.cmp(&key_of(alloc, right)?)));
    Ok(())
}

/// `compare_kinds KIND KIND`: their order.
pub(crate) fn compare_kinds(left: &str, right: &str, out: &mut Answer) -> Result<(), Refusal> {
    out.text(order_word(kind_of(left)?.cmp(&kind_of(right)?)));
    Ok(())
}
