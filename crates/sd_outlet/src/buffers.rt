ghost use Rattle.std.specs.Prelude.{◌≡◌, ◌⊎◌, ◌<◌, ◌≤◌, ℕ, List, length};
ghost use Rattle.sd_model_outside.specs.Outside.{HasFailedBehind, given};
ghost use Rattle.sd_outlet.specs.declared.out_buf.OutBuf.{OutBuf as Buffer};
ghost use Rattle.sd_outlet.specs.OutBuf.{IsNewBuf, faults_in, seen_of, size_in, text_in};

/// What writing a text into a buffer leaves, whatever was answered: the buffer has the size that it had. No buffer holds more
/// than that, and one with faults is full. So a text that isn't longer than a new buffer is there whole.
pub fn buffers_keep_what_fits()
    ensures size { (text : List ℕ) (old new : Buffer)
        → (seen_of new ≡ given text (seen_of old)) ⊎ HasFailedBehind text (seen_of old) (seen_of new)
        → size_in new ≡ size_in old }
    ensures within { (b : Buffer) → length (text_in b) ≤ size_in b }
    ensures full { (b : Buffer) → 0 < faults_in b → length (text_in b) ≡ size_in b }
    ensures whole { (text : List ℕ) (old new : Buffer) → IsNewBuf old → length text ≤ size_in old
        → (seen_of new ≡ given text (seen_of old)) ⊎ HasFailedBehind text (seen_of old) (seen_of new)
        → text_in new ≡ text }
{}
