//! Laws of the order in which documents come.
ghost use Rattle.std.specs.Prelude.{◌≢◌};
ghost use Rattle.elasticlunr_commands.specs.History.{Commands, Document, ◌▸◌, add};
ghost use Rattle.elasticlunr_commands.specs.History.{HasNoCompaction, Agree};

/// Where nothing was compacted, two documents of different references may be added in either order.
pub fn documents_in_either_order_agree()
    ensures { (commands : Commands) (d : Document) (e : Document)
        → HasNoCompaction commands → d.reference ≢ e.reference
        → Agree (commands ▸ add d ▸ add e) (commands ▸ add e ▸ add d) }
{}
