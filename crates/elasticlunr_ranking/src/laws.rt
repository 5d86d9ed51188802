//! Laws of scores and hits.
ghost use Rattle.std.specs.Prelude.{◌↔◌, List, [], ◌∷◌, All, Contains, IsSome, IsTrue, map};
ghost use Rattle.std.specs.Float.{Float, float_is_finite};
ghost use Rattle.elasticlunr_error.specs.Text.{Text, Bytes};
ghost use Rattle.elasticlunr_ranking.specs.Counts.{AreShort, HasCounts};
ghost use Rattle.elasticlunr_ranking.specs.Fields.{Field};
ghost use Rattle.elasticlunr_ranking.specs.Order.{AreRanked};
ghost use Rattle.elasticlunr_ranking.specs.Postings.{HasTokens, IsPlain};
ghost use Rattle.elasticlunr_ranking.specs.Weights.{AreLookedUp, field_score};

/// In a field without `expand` whose boost is not 0, the documents that have a score are exactly
/// those that have a posting at one of the tokens, or at each of them, of which there is at least
/// one.
pub fn scored_documents_have_the_tokens()
    ensures { (field : Field) (tokens : List Text) (looked_up : List (Text × List Text))
        (reference : Bytes) → IsPlain field → AreLookedUp field tokens looked_up
        → IsSome (field_score field looked_up reference)
        ↔ HasTokens field.join field.table tokens reference }
{}

/// The hits of a search in one such field are exactly these documents.
pub fn hits_have_the_tokens()
    ensures { (field : Field) (tokens : List Text) (hits : List (Bytes × Float))
        (reference : Bytes) → IsPlain field → AreRanked (field ∷ []) tokens hits
        → Contains (map (λ hit. hit.0) hits) reference
        ↔ HasTokens field.join field.table tokens reference }
{}

/// Where no word is in more documents than there are, and the numbers of fields and tokens have 64
/// bits, each score is finite, and so a number.
pub fn scores_are_finite()
    ensures { (fields : List Field) (tokens : List Text) (hits : List (Bytes × Float))
        → All HasCounts fields → AreShort tokens → AreRanked fields tokens hits
        → All (λ hit. IsTrue (float_is_finite hit.1)) hits }
{}
