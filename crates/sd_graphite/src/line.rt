ghost use Rattle.std.specs.Prelude.{◌≡◌, ◌+◌, ◌≤◌, ◌++◌, length};
ghost use Rattle.arrayvec.specs.ArrayVec.{array_vec_len};
ghost use Rattle.sd_model_text.specs.Numbers.{number_text};
ghost use Rattle.sd_model_record.specs.Backends.{dotted, suffix, path_prefix, graphite_line as line_text};
ghost use Rattle.sd_graphite.specs.Texts.{path_text, BeginsWith};

use crate::path::Path;
use crate::second::Second;
use sd_decimal::{Line, Sum};
use sd_plan::Names;
use sd_record::{push_number, push_text};

/// Appends a part of a path and the point behind it, or nothing where it is empty.
fn push_dotted(part: &[u8], line: &mut Line)
    requires part { length part.now ≤ 64 }
    requires room { array_vec_len line.old ≤ 512 }
    ensures text { line.new.items ≡ line.old.items ++ dotted part.now }
    ensures len { array_vec_len line.new ≤ array_vec_len line.old + 65 }
{
    if part.is_empty() {
        return;
    }
    push_text(part, line);
    line.push(b'.');
}

/// Appends what stands before a key.
fn push_path_prefix(names: &Names, legacy: &[u8], prefix: &[u8], line: &mut Line)
    requires legacy { length legacy.now ≤ 64 }
    requires prefix { length prefix.now ≤ 64 }
    requires room { array_vec_len line.old ≤ 256 }
    ensures text { line.new.items ≡ line.old.items ++ path_prefix names.now legacy.now prefix.now }
    ensures len { array_vec_len line.new ≤ array_vec_len line.old + 130 }
{
    let namespace = names.namespace();
    if namespace.legacy {
        push_text(legacy, line);
        return;
    }
    push_dotted(namespace.global_prefix.as_slice(), line);
    push_dotted(prefix, line);
}

/// Appends what stands behind each path.
fn push_suffix(names: &Names, line: &mut Line)
    requires { array_vec_len line.old ≤ 514 }
    ensures text { line.new.items ≡ line.old.items ++ suffix names.now }
    ensures len { array_vec_len line.new ≤ array_vec_len line.old + 65 }
{
    let text = names.namespace().global_suffix.as_slice();
    if text.is_empty() {
        return;
    }
    line.push(b'.');
    push_text(text, line);
}

/// Begins a line with a path, in place of what it has.
pub(crate) fn begin(names: &Names, path: &Path<'_>, line: &mut Line)
    ensures text { line.new.items ≡ path_text names.now path.now }
    ensures len { array_vec_len line.new ≤ 450 }
{
    line.clear();
    push_path_prefix(names, path.legacy, path.prefix, line);
    push_text(path.key, line);
    push_text(path.back, line);
}

/// How many bytes a part of a path has, with the point behind it.
fn dotted_len(part: &[u8]) -> usize
    requires { length part.now ≤ 64 }
    ensures len { result ≡ length (dotted part.now) }
    ensures few { result ≤ 65 }
{
    if part.is_empty() { 0 } else { part.len() + 1 }
}

/// How many bytes stand before a key.
fn path_prefix_len(names: &Names, legacy: &[u8], prefix: &[u8]) -> usize
    requires legacy { length legacy.now ≤ 64 }
    requires prefix { length prefix.now ≤ 64 }
    ensures len { result ≡ length (path_prefix names.now legacy.now prefix.now) }
    ensures few { result ≤ 130 }
{
    let namespace = names.namespace();
    if namespace.legacy {
        return legacy.len();
    }
    dotted_len(namespace.global_prefix.as_slice()) + dotted_len(prefix)
}

/// Keeps of a line the path that it begins with.
pub(crate) fn keep(names: &Names, path: &Path<'_>, line: &mut Line)
    requires { BeginsWith (path_text names.now path.now) line.old.items }
    ensures text { line.new.items ≡ path_text names.now path.now }
    ensures len { array_vec_len line.new ≤ 450 }
{
    let path_prefix = path_prefix_len(names, path.legacy, path.prefix);
    line.truncate(path_prefix + path.key.len() + path.back.len());
}

/// Ends a line behind its path with the suffix, a number and the second.
pub(crate) fn end(names: &Names, number: Sum, second: &Second, line: &mut Line)
    requires { array_vec_len line.old ≤ 514 }
    ensures { line.new.items ≡ line_text names.now line.old.items (number_text number.0) second.now }
{
    push_suffix(names, line);
    push_number(number, line);
    second.push(line);
}

/// Puts the line of a path and a number into `line`, in place of what it has.
pub(crate) fn put_path(
    names: &Names,
    path: &Path<'_>,
    number: Sum,
    second: &Second,
    line: &mut Line,
)
    ensures { line.new.items ≡ line_text names.now (path_text names.now path.now) (number_text number.0) second.now }
{
    begin(names, path, line);
    end(names, number, second, line);
}
