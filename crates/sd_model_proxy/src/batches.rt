ghost use Rattle.std.specs.Prelude.{◌≡◌, ℕ, ◌<◌, ◌≤◌, List, [], ◌∷◌, All, flat_map, length, map, filter};
ghost use Rattle.sd_model_settings.specs.Entries.{Node};
ghost use Rattle.sd_model_proxy.specs.Routes.{AreBatched, Batched, batches, joined, Read, route, goes_to};

/// The lines of packets are the lines, in order. A packet of two lines or more has at most so many bytes, and where there are to be
/// none, each line goes alone.
pub fn packets_hold_lines()
    ensures lines { (most : ℕ) (lines : List (List ℕ)) → flat_map (λ packet. packet) (batches most lines) ≡ lines }
    ensures fit { (most : ℕ) (lines : List (List ℕ)) → All (λ packet. 1 < length packet → length (joined packet) ≤ most) (batches most lines) }
    ensures alone { (lines : List (List ℕ)) → batches 0 lines ≡ map (λ line. line ∷ []) lines }
{}

/// The lines of the packets to a node are those of the datagrams that go there, in order, however many fit a packet.
pub fn nodes_get_their_lines()
    ensures { (most : ℕ) (nodes : List Node) (reads : List Read) (batched : Batched) → AreBatched most nodes reads batched
        → (place : ℕ) → flat_map (λ b. b.lines) (batched place) ≡ flat_map (λ r. filter (λ line. goes_to place (route line nodes r.up)) r.lines) reads }
{}
