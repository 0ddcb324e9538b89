ghost use Rattle.std.specs.Prelude.{◌≡◌, ◌∷◌, ℕ, List, [], length};
ghost use Rattle.sd_model_proxy.specs.Routes.{joined};
ghost use Rattle.sd_proxy.specs.Sending.{Sends};
ghost use Rattle.sd_proxy_desk.specs.Views.{totals_view};

use sd_outside::Wire;
use sd_proxy_desk::ProxyTotals;

/// Sends a packet of so many lines, and counts these.
pub(crate) fn send_packet<L: Wire>(
    packet: &[u8],
    count: u64,
    wire: &mut L,
    totals: &mut ProxyTotals,
)
    ensures { (lines : List (List ℕ)) → packet.now ≡ joined lines → count ≡ length lines
        → Sends (lines ∷ []) (L.seen wire.old) (L.seen wire.new) (totals_view totals.old) (totals_view totals.new) }
{
    match wire.send(packet) {
        Ok(()) => totals.add_sent(count),
        Err(_) => totals.add_not_sent(count),
    }
}
