//! Laws of what is read: where no history is full it takes all of a feed, and each cause has its number. Each function is a
//! law: it does nothing, and its contract says it.

ghost use Rattle.std.specs.Prelude.{◌≡◌, ℕ, List, [], ◌∷◌};
ghost use Rattle.dn_formats.specs.Lawful.{IsKept, kept_by, taken};
ghost use Rattle.feed_model.specs.Steps.{FeedRead, updates};
ghost use Rattle.dn_formats.specs.declared.script_cause.TheConstants as script;
ghost use Rattle.dn_formats.specs.declared.topology_cause.TheConstants as topology;
ghost use Rattle.dn_formats.specs.declared.script.Line.{Line};
ghost use Rattle.feed_model.specs.declared.feed_told.FeedEnd.TheVariants.{Full};
ghost use Rattle.dn_model.specs.declared.entry.Entry.{Entry};

/// Of a feed that a full history didn't break off, every update of the frames that lines take is in the history.
pub fn feeds_are_kept_whole()
    ensures { (limit : ℕ) (history : List Entry) (f : FeedRead) (lines : List Line)
        → IsKept limit history f → (f.end ≡ Full → ⊥) → kept_by lines f ≡ updates (taken lines f) }
{}

/// Each cause has its number: those of topologies 1 to 15, of scripts 1 to 5.
pub fn causes_have_their_numbers()
    ensures topologies { topology.NOT_TOML ∷ topology.UNKNOWN_KEY ∷ topology.MISSING_KEY ∷ topology.BAD_NAME ∷
        topology.TWICE_NAMED ∷ topology.BAD_END ∷ topology.END_TWICE ∷ topology.SELF_LINK ∷
        topology.TOO_MANY ∷ topology.TOO_LONG ∷ topology.BAD_REPLACE ∷ topology.TWICE_MARKED ∷
        topology.NO_SUCH_ROUTER ∷ topology.BAD_TABLE ∷ topology.TABLE_TWICE ∷ []
        ≡ 1 ∷ 2 ∷ 3 ∷ 4 ∷ 5 ∷ 6 ∷ 7 ∷ 8 ∷ 9 ∷ 10 ∷ 11 ∷ 12 ∷ 13 ∷ 14 ∷ 15 ∷ [] }
    ensures scripts { script.BAD_LINE ∷ script.TAKE_UNKNOWN ∷ script.TAKEN_TWICE ∷ script.TOO_MANY_LINES ∷
        script.TOO_LONG ∷ []
        ≡ 1 ∷ 2 ∷ 3 ∷ 4 ∷ 5 ∷ [] }
{}
