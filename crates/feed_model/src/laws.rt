//! Laws of feeds: a payload and a feed have one reading, and each cause has its number. Each function is a law: it does
//! nothing, and its contract says it.

ghost use Rattle.std.specs.Prelude.{◌≡◌, ℕ, List, [], ◌∷◌};
ghost use Rattle.feed_model.specs.Payload.{IsPayload};
ghost use Rattle.feed_model.specs.Feed.{IsReading, IsFaultedReading};
ghost use Rattle.feed_model.specs.Steps.{FrameStep};
ghost use Rattle.feed_model.specs.declared.frame_cause.TheConstants as frame;
ghost use Rattle.feed_model.specs.declared.feed_told.FeedEnd.{FeedEnd};
ghost use Rattle.feed_model.specs.declared.payload.Payload.{Payload};
ghost use Rattle.base.specs.declared.ids.RouterId.{RouterId};
ghost use Rattle.dn_model.specs.declared.topology.Topology.{Topology};

/// The bytes of a payload, of which the routes of these tables beside the main one are read, say one thing.
pub fn payloads_are_unique()
    ensures { (tables bytes : List ℕ) (x y : Payload) → IsPayload tables bytes x → IsPayload tables bytes y → x ≡ y }
{}

/// A feed has one reading: its bytes, up to a limit, come to one list of steps and one end.
pub fn feeds_have_one_reading()
    ensures { (t : Topology) (r : RouterId) (bytes : List ℕ) (limit : ℕ) (xs ys : List FrameStep) (e f : FeedEnd)
        → IsReading t r bytes limit xs e → IsReading t r bytes limit ys f → (xs ≡ ys) × (e ≡ f) }
{}

/// A feed that failed has one reading.
pub fn failed_feeds_have_one_reading()
    ensures { (t : Topology) (r : RouterId) (bytes : List ℕ) (xs ys : List FrameStep)
        → IsFaultedReading t r bytes xs → IsFaultedReading t r bytes ys → xs ≡ ys }
{}

/// Each cause has its number, 1 to 18.
pub fn frame_causes_have_their_numbers()
    ensures frames { frame.BAD_LENGTH ∷ frame.SHORT ∷ frame.BAD_ATTR ∷ frame.BAD_PREFIX_LENGTH ∷ frame.SOURCE_OR_TOS ∷
        frame.NO_DESTINATION ∷ frame.HOST_BITS ∷ frame.ROUTE_TYPE ∷ frame.MULTIPATH ∷ frame.ENCAP ∷
        frame.NEXT_HOP_ID ∷ frame.NO_INTERFACE ∷ frame.UNKNOWN_INTERFACE ∷ frame.FRAME_TYPE ∷
        frame.BAD_VERSION ∷ frame.BAD_FRAME_LENGTH ∷ frame.UNKNOWN_NEXT_HOP ∷ frame.NO_NEXT_HOP_ID ∷ []
        ≡ 1 ∷ 2 ∷ 3 ∷ 4 ∷ 5 ∷ 6 ∷ 7 ∷ 8 ∷ 9 ∷ 10 ∷ 11 ∷ 12 ∷ 13 ∷ 14 ∷ 15 ∷ 16 ∷ 17 ∷ 18 ∷ [] }
{}
