ghost use Rattle.std.specs.Prelude.{◌≡◌, ◌≢◌, ◌≤◌, ℕ, ◌∷◌, ◌++◌, decimal, option_map, IfSome, IfNone, ◌^◌, ◌<◌};
ghost use Rattle.sd_model_replay.specs.Script.{PacketHead, body_of, head_line, IsForm, IsMoment};
ghost use Rattle.sd_model_replay.specs.Script as model;
ghost use Rattle.sd_script.specs.Head.{body_view, head_of, IsLineOf};

use crate::fields::{first_field, number};

/// The most bytes that a datagram has.
pub(crate) const LONGEST: usize = 65_507;

/// The most bytes that an admin command has.
const LONGEST_COMMAND: usize = 1_023;

/// The first line of a record.
#[derive(Clone, Copy, Debug, PartialEq, Eq)]
pub(crate) enum Head {
    /// A receiver got a datagram of that many bytes at a moment.
    Packet { who: u16, moment: u64, len: usize },
    /// A flush at a Unix second.
    Flush { ts: u64 },
    /// An admin command of that many bytes came at a moment.
    Admin { moment: u64, len: usize },
    /// The word that ends a script.
    End,
}

/// What stands behind a first line, before a newline.
#[derive(Clone, Copy, Debug, PartialEq, Eq)]
pub(crate) struct Body {
    pub len: usize,
    /// The most bytes that it may have.
    pub most: usize,
    /// Whether no newline may stand among its bytes.
    pub is_line: bool,
}

impl Head {
    /// The body that it announces, if it does.
    pub(crate) fn body(self) -> Option<Body>
        ensures body { option_map body_view result ≡ body_of (head_of self) }
        ensures most { IfSome result (λ b. b.most ≤ LONGEST) }
    {
        match self {
            Head::Packet { len, .. } => Some(Body {
                len,
                most: LONGEST,
                is_line: false,
            }),
            Head::Admin { len, .. } => Some(Body {
                len,
                most: LONGEST_COMMAND,
                is_line: true,
            }),
            Head::Flush { .. } | Head::End => None,
        }
    }
}

/// The head that a line without its newline is, where it is of a form with so many receivers.
pub(crate) fn parse_line(line: &[u8], receivers: u16) -> Option<Head>
    ensures head { IfSome result (IsLineOf receivers line.now) }
    ensures other { IfNone result ((head : model.Head) → IsForm receivers head → line.now ≢ head_line head) }
{
    match line {
        [b'P', b' ', fields @ ..] => packet_head(fields, receivers),
        [b'F', b' ', digits @ ..] => Some(Head::Flush {
            ts: number(digits, 18)?,
        }),
        [b'A', b' ', fields @ ..] => {
            let (moment, len) = moment_and_len(fields)?;
            Some(Head::Admin { moment, len })
        }
        [b'E'] => Some(Head::End),
        _ => None,
    }
}

/// The head of a packet, of its three fields.
fn packet_head(fields: &[u8], receivers: u16) -> Option<Head>
    ensures head { IfSome result (λ head. IsLineOf receivers (80 ∷ 32 ∷ fields.now) head) }
    ensures other { IfNone result
        ((who moment len : ℕ) → IsForm receivers (PacketHead who moment len) → fields.now ≢ decimal who ++ 32 ∷ decimal moment ++ 32 ∷ decimal len) }
{
    let (who, rest) = first_field(fields)?;
    let who = number(who, 2)?;
    let (moment, len) = moment_and_len(rest)?;
    if who >= u64::from(receivers) {
        return None;
    }
    Some(Head::Packet {
        who: who as u16,
        moment,
        len,
    })
}

/// The moment and the number of bytes of a record with a body, of the last two fields of its first line.
fn moment_and_len(fields: &[u8]) -> Option<(u64, usize)>
    ensures numbers { IfSome result (λ n. (fields.now ≡ decimal n.0 ++ 32 ∷ decimal n.1) × IsMoment n.0 × (n.1 < 10 ^ 5)) }
    ensures other { IfNone result
        ((moment len : ℕ) → IsMoment moment → (len < 10 ^ 5) → fields.now ≢ decimal moment ++ 32 ∷ decimal len) }
{
    let (moment, len) = first_field(fields)?;
    let moment = number(moment, 18)?;
    let len = number(len, 5)?;
    Some((moment, len as usize))
}
