ghost use Rattle.std.specs.Prelude.{◌≤◌, length};

/// A path in parts: what stands before the key in the legacy namespace, the prefix that stands there in the other one,
/// the key, and what stands behind it.
#[derive(Clone, Copy)]
pub(crate) struct Path<'a> {
    pub legacy: &'a [u8],
    pub prefix: &'a [u8],
    pub key: &'a [u8],
    pub back: &'a [u8],
    ghost short_legacy: { length legacy.now ≤ 64 },
    ghost short_prefix: { length prefix.now ≤ 64 },
    ghost short_key: { length key.now ≤ 255 },
    ghost short_back: { length back.now ≤ 65 },
}
