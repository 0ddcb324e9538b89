ghost use Rattle.std.specs.Prelude.{◌≡◌, ℕ, false, List, [], ◌∷◌, ◌++◌, flat_map, All, nat_le, length, if◌then◌else◌};
ghost use Rattle.std.specs.List.{concat};
ghost use Rattle.sd_model_text.specs.Lists.{split};
ghost use Rattle.sd_law_text.specs.Bytes.{has_byte};
ghost use Rattle.sd_model_stream.specs.Streams.{StreamLine, but_last, samples_of_line, stream_lines, Stream, bytes_in, lines_in, Line, Long};
ghost use Rattle.sd_model_proxy.specs.Relays.{lines_ended};
ghost use Rattle.sd_tcp.specs.Cutting.{rest_of, Cutting, CutsOn, HasCut, nothing_cut};
ghost use Rattle.sd_law_run.specs.Samples.{stream_samples};
ghost use Rattle.sd_model_text.specs.Lines.{longest_datagram};

/// A stream that has no byte has no line and no rest. Bytes without a newline go to the rest, and one behind them ends it as a
/// line.
pub fn lines_come_in_pieces()
    ensures none { stream_lines [] ≡ [] }
    ensures nothing_left { rest_of [] ≡ [] }
    ensures same { (stream bytes : List ℕ) → has_byte 10 bytes ≡ false → stream_lines (stream ++ bytes) ≡ stream_lines stream }
    ensures rest { (stream bytes : List ℕ) → has_byte 10 bytes ≡ false → rest_of (stream ++ bytes) ≡ rest_of stream ++ bytes }
    ensures ended { (stream bytes : List ℕ) → has_byte 10 bytes ≡ false
        → stream_lines (stream ++ (bytes ++ 10 ∷ [])) ≡ stream_lines stream ++ (if nat_le (length (rest_of stream ++ bytes)) longest_datagram then Line (rest_of stream ++ bytes) else Long) ∷ [] }
    ensures begun { (stream bytes : List ℕ) → has_byte 10 bytes ≡ false → rest_of (stream ++ (bytes ++ 10 ∷ [])) ≡ [] }
{}

/// A stream is its parts but the last, each with a newline behind it, and then its rest; and no newline stands in a part.
pub fn streams_are_their_parts()
    ensures whole { (stream : List ℕ) → flat_map (λ part. part ++ 10 ∷ []) (but_last (split 10 stream)) ++ rest_of stream ≡ stream }
    ensures lacks { (stream : List ℕ) → All (λ part. has_byte 10 part ≡ false) (split 10 stream) }
{}

/// A cutter that has none ready has given the lines of what it was given, in whatever pieces that came.
pub fn cutters_give_all_lines()
    ensures none { HasCut [] [] nothing_cut }
    ensures all { (given : List StreamLine) (stream : List ℕ) (c : Cutting) → HasCut given stream c → c.is_ready ≡ false → given ≡ stream_lines stream }
    ensures stays { (c : Cutting) → CutsOn [] [] c c }
    ensures pieces { (xs ys : List StreamLine) (before behind : List ℕ) (old mid new : Cutting) → CutsOn xs before old mid → CutsOn ys behind mid new
        → CutsOn (xs ++ ys) (before ++ behind) old new }
{}

/// Streams one after another have the samples of each.
pub fn streams_have_samples()
    ensures { (streams : List Stream) → flat_map samples_of_line (lines_in streams) ≡ flat_map (λ s. stream_samples (bytes_in s)) streams }
{}

/// The lines that the reads of a stream ended, one read after another, are the lines of the stream, however it is cut into reads.
pub fn reads_end_each_line()
    ensures { (reads : List (List ℕ)) → flat_map (λ cuts. cuts) (lines_ended [] reads) ≡ stream_lines (concat reads) }
{}
