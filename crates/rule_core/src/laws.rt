//! What the definitions of the field give.
ghost use Rattle.std.specs.Prelude.{◌≡◌, ◌↔◌, ◌<◌, ℤ, ℕ, List, length, map, Contains, Some, slice_get};
ghost use Rattle.std.specs.Ordering.{nat_cmp};
ghost use Rattle.std.specs.declared.cmp.Ordering.TheVariants.{Equal};
ghost use Rattle.std.specs.Cmp.{IsTotalOrder};
ghost use Rattle.std.specs.Cmp.Lexicographic.{slice_cmp};
ghost use Rattle.term_core.specs.declared.const_id.ConstId.{ConstId};
ghost use Rattle.term_core.specs.declared.term.Term.{Term};
ghost use Rattle.term_core.specs.Order.{term_cmp};
ghost use Rattle.term_core.specs.Pool.{IsPool};
ghost use Rattle.rule_core.specs.declared.rules.Atom.{Atom};
ghost use Rattle.rule_core.specs.declared.rules.Tgd.{Tgd};
ghost use Rattle.rule_core.specs.declared.rules.Egd.{Egd};
ghost use Rattle.rule_core.specs.declared.rules.Query.{Query};
ghost use Rattle.rule_core.specs.Frontier.{IsFrontier};
ghost use Rattle.rule_core.specs.Firing.{frontier_of};
ghost use Rattle.rule_core.specs.Validity.{IsValid};
ghost use Rattle.rule_core.specs.Terms.{Unknown, TermOf, unknown, FactOf, StampedOf};
ghost use Rattle.rule_core.specs.Order.{stored_cmp};
ghost use Rattle.rule_core.specs.Mapping.{RuleSet};
ghost use Rattle.rule_core.specs.Snapshot.{snapshot_at};
ghost use Rattle.rule_core.specs.Match.{Matches};
ghost use Rattle.rule_core.specs.Homomorphism.{Homomorphism, fact_image};
ghost use Rattle.rule_core.specs.Solution.{TgdHolds, EgdHolds, IsSolution, IsSolvable, IsUniversal, HasSolution};
ghost use Rattle.rule_core.specs.Answers.{IsAnswer, IsCertain};
ghost use Rattle.rule_core.specs.Laws.{CertainIsAnswered, MatchesAreRetold, EgdsAreRetold, AnswersAreRetold, ImagesStay, ImagesCompose, MapsCompose, ReplacingKeepsMaps, ClashesHaveNoMap};
ghost use Rattle.rule_core.specs.Coalesced.{Covers, IsCoalesced};
ghost use Rattle.rule_core.specs.Rebase.{renumbered, renumbered_query};
ghost use Rattle.rule_core.specs.Renaming.{Renaming, renamed_term, renamed_facts, renamed_stamped, HoldTheSame, IsRuleConstant, IsQueryConstant, HasUnknown, AreToldApart};

/// A fact is in a snapshot exactly where a stamped fact of it has a span with the instant.
pub fn snapshots_hold_what_is_covered()
    ensures { (stamped : List (StampedOf (FactOf (List ℕ)))) (fact : FactOf (List ℕ)) (t : ℤ)
        → Contains (snapshot_at stamped t) fact ↔ Covers stamped fact t }
{}

/// The order of rows is total, and tells any two of them apart.
pub fn rows_have_one_order()
    ensures total { IsTotalOrder stored_cmp }
    ensures apart { (a b : List (TermOf (List ℕ))) → stored_cmp a b ≡ Equal → a ≡ b }
{}

/// What a coalesced list covers settles it: two that cover the same are equal. So the rows and instants that
/// a stored table is to cover fix the table.
pub fn two_coalesced_lists_with_one_cover_are_equal()
    ensures terms { (a b : List (StampedOf (List (TermOf (List ℕ)))))
        → IsCoalesced stored_cmp a → IsCoalesced stored_cmp b
        → ((row : List (TermOf (List ℕ))) (t : ℤ) → Covers a row t ↔ Covers b row t) → a ≡ b }
    ensures texts { (a b : List (StampedOf (List (List ℕ))))
        → IsCoalesced (slice_cmp (slice_cmp nat_cmp)) a
        → IsCoalesced (slice_cmp (slice_cmp nat_cmp)) b
        → ((row : List (List ℕ)) (t : ℤ) → Covers a row t ↔ Covers b row t) → a ≡ b }
{}

/// Universal instances of one source map into each other, so that neither says more than the other.
pub fn universal_instances_map_into_each_other()
    ensures { (name : ConstId → List ℕ) (rules : RuleSet) (source : List (FactOf (List ℕ)))
        → (a b : List (FactOf (List ℕ))) → IsUniversal name rules source a
        → IsUniversal name rules source b
        → Homomorphism (Contains a) b × Homomorphism (Contains b) a }
{}

/// A solution that maps into a universal instance is universal too: a universal one is the least of the
/// solutions, where one is below another that it maps into.
pub fn solutions_below_a_universal_one_are_universal()
    ensures { (name : ConstId → List ℕ) (rules : RuleSet) (source : List (FactOf (List ℕ)))
        → (least target : List (FactOf (List ℕ)))
        → IsUniversal name rules source least → IsSolution name rules source target
        → Homomorphism (Contains target) least → IsUniversal name rules source target }
{}

/// The frontier of a tgd is one list: its computed form is the only one of exactly the body's variables that occur
/// in the head, ascending.
pub fn a_tgd_has_one_frontier()
    ensures computed { (tgd : Tgd) → IsFrontier tgd (frontier_of tgd) }
    ensures only { (tgd : Tgd) (variables : List ℕ) → IsFrontier tgd variables → variables ≡ frontier_of tgd }
{}

/// A one-to-one renaming of all constants keeps matches, rules that hold, homomorphisms, solutions and whether there is one,
/// universal instances, answers, and what is certain. So the numbers of constants may stand for their texts.
pub fn a_renaming_keeps_what_holds()
    ensures matches { (r : Renaming ConstId (List ℕ)) (name : ConstId → ConstId)
        → (binding : ℕ → TermOf ConstId) (atoms : List Atom) (instance : List (FactOf ConstId))
        → Matches name binding atoms instance ↔ Matches (λ c. r.to (name c))
        (λ v. renamed_term r.to (binding v)) atoms (renamed_facts r.to instance) }
    ensures tgd { (r : Renaming ConstId (List ℕ)) (name : ConstId → ConstId) (tgd : Tgd)
        → (source target : List (FactOf ConstId)) → TgdHolds name tgd source target
        ↔ TgdHolds (λ c. r.to (name c)) tgd (renamed_facts r.to source) (renamed_facts r.to target) }
    ensures egd { (r : Renaming ConstId (List ℕ)) (name : ConstId → ConstId) (egd : Egd)
        → (target : List (FactOf ConstId)) → EgdHolds name egd target
        ↔ EgdHolds (λ c. r.to (name c)) egd (renamed_facts r.to target) }
    ensures maps { (r : Renaming ConstId (List ℕ)) (a b : List (FactOf ConstId))
        → (Homomorphism (Contains a) b → Homomorphism (Contains (renamed_facts r.to a)) (renamed_facts r.to b))
        × (Homomorphism (Contains (renamed_facts r.to a)) (renamed_facts r.to b) → Homomorphism (Contains a) b) }
    ensures solution { (r : Renaming ConstId (List ℕ)) (name : ConstId → ConstId) (rules : RuleSet)
        → (source target : List (FactOf ConstId)) → IsSolution name rules source target
        ↔ IsSolution (λ c. r.to (name c)) rules (renamed_facts r.to source) (renamed_facts r.to target) }
    ensures solvable { (r : Renaming ConstId (List ℕ)) (name : ConstId → ConstId) (rules : RuleSet)
        → (source : List (FactOf ConstId)) → IsSolvable name rules source
        ↔ IsSolvable (λ c. r.to (name c)) rules (renamed_facts r.to source) }
    ensures has_solution { (r : Renaming ConstId (List ℕ)) (name : ConstId → ConstId) (rules : RuleSet)
        → (source : List (StampedOf (FactOf ConstId))) → HasSolution name rules source
        ↔ HasSolution (λ c. r.to (name c)) rules (renamed_stamped r.to source) }
    ensures universal { (r : Renaming ConstId (List ℕ)) (name : ConstId → ConstId) (rules : RuleSet)
        → (source target : List (FactOf ConstId)) → IsUniversal name rules source target
        ↔ IsUniversal (λ c. r.to (name c)) rules (renamed_facts r.to source) (renamed_facts r.to target) }
    ensures answer { (r : Renaming ConstId (List ℕ)) (name : ConstId → ConstId) (query : Query)
        → (instance : List (FactOf ConstId)) (terms : List (TermOf ConstId)) → IsAnswer name query instance terms
        ↔ IsAnswer (λ c. r.to (name c)) query (renamed_facts r.to instance) (map (renamed_term r.to) terms) }
    ensures certain { (r : Renaming ConstId (List ℕ)) (name : ConstId → ConstId) (rules : RuleSet)
        → (query : Query) (source : List (FactOf ConstId)) (constants : List ConstId)
        → IsCertain name rules query source constants
        ↔ IsCertain (λ c. r.to (name c)) rules query (renamed_facts r.to source) (map r.to constants) }
    ensures snapshots { (r : Renaming ConstId (List ℕ)) (source : List (StampedOf (FactOf ConstId))) (t : ℤ)
        → snapshot_at (renamed_stamped r.to source) t ≡ renamed_facts r.to (snapshot_at source t) }
{}

/// Some renaming of all numbers to all texts takes the number of each text of a pool to this text. Numbers past the pool
/// stand for all other texts.
pub fn a_pool_begins_a_renaming()
    ensures { (pool : List (List ℕ)) → IsPool pool → (r : Renaming ConstId (List ℕ))
        × ((c : ConstId) → c.0 < length pool → slice_get pool c.0 ≡ Some (r.to c)) }
{}

/// What is said of instances is said of sets of facts: neither the order of facts nor how often each stands matters.
pub fn instances_are_read_as_sets()
    ensures solution { (name : ConstId → List ℕ) (rules : RuleSet)
        → (source other target result : List (FactOf (List ℕ))) → HoldTheSame source other
        → HoldTheSame target result → IsSolution name rules source target → IsSolution name rules other result }
    ensures universal { (name : ConstId → List ℕ) (rules : RuleSet)
        → (source other target result : List (FactOf (List ℕ))) → HoldTheSame source other
        → HoldTheSame target result → IsUniversal name rules source target → IsUniversal name rules other result }
    ensures solvable { (name : ConstId → List ℕ) (rules : RuleSet) (source other : List (FactOf (List ℕ)))
        → HoldTheSame source other → IsSolvable name rules source → IsSolvable name rules other }
    ensures answer { (name : ConstId → List ℕ) (query : Query) (instance other : List (FactOf (List ℕ)))
        → (terms : List (TermOf (List ℕ))) → HoldTheSame instance other
        → IsAnswer name query instance terms → IsAnswer name query other terms }
    ensures certain { (name : ConstId → List ℕ) (rules : RuleSet) (query : Query)
        → (source other : List (FactOf (List ℕ))) (constants : List (List ℕ)) → HoldTheSame source other
        → IsCertain name rules query source constants → IsCertain name rules query other constants }
{}

/// Rules and queries whose constants have other numbers say the same, where each number stands for the text of the
/// one before.
pub fn renumbered_rules_say_the_same()
    ensures solution { (name other : ConstId → List ℕ) (number : ConstId → ConstId) (rules : RuleSet)
        → ((c : ConstId) → IsRuleConstant rules c → other (number c) ≡ name c)
        → (source target : List (FactOf (List ℕ))) → IsSolution other (renumbered number rules) source target
        ↔ IsSolution name rules source target }
    ensures solvable { (name other : ConstId → List ℕ) (number : ConstId → ConstId) (rules : RuleSet)
        → ((c : ConstId) → IsRuleConstant rules c → other (number c) ≡ name c)
        → (source : List (FactOf (List ℕ))) → IsSolvable other (renumbered number rules) source
        ↔ IsSolvable name rules source }
    ensures universal { (name other : ConstId → List ℕ) (number : ConstId → ConstId) (rules : RuleSet)
        → ((c : ConstId) → IsRuleConstant rules c → other (number c) ≡ name c)
        → (source target : List (FactOf (List ℕ))) → IsUniversal other (renumbered number rules) source target
        ↔ IsUniversal name rules source target }
    ensures answer { (name other : ConstId → List ℕ) (number : ConstId → ConstId) (query : Query)
        → ((c : ConstId) → IsQueryConstant query c → other (number c) ≡ name c)
        → (instance : List (FactOf (List ℕ))) (terms : List (TermOf (List ℕ)))
        → IsAnswer other (renumbered_query number query) instance terms ↔ IsAnswer name query instance terms }
    ensures certain { (name other : ConstId → List ℕ) (number : ConstId → ConstId) (rules : RuleSet) (query : Query)
        → ((c : ConstId) → IsRuleConstant rules c → other (number c) ≡ name c)
        → ((c : ConstId) → IsQueryConstant query c → other (number c) ≡ name c)
        → (source : List (FactOf (List ℕ))) (constants : List (List ℕ))
        → IsCertain other (renumbered number rules) (renumbered_query number query) source constants
        ↔ IsCertain name rules query source constants }
{}

/// Where an instance is universal, a list of constants is certain exactly when it is an answer there. So one target gives
/// all certain answers.
pub fn what_is_certain_is_answered_on_a_universal_instance()
    ensures numbers { CertainIsAnswered ConstId }
    ensures texts { CertainIsAnswered (List ℕ) }
{}

/// The unknowns of a universal instance may be told otherwise, as by numbers, if they stay apart. One that is in the
/// source too stays as it is. Whatever the constants are, matches go along, and the same egds hold.
pub fn unknowns_may_be_told_otherwise()
    ensures universal { (name : ConstId → List ℕ) (rules : RuleSet) → IsValid rules
        → (source target : List (FactOf (List ℕ))) (told back : Unknown (List ℕ) → Unknown (List ℕ))
        → AreToldApart target told back → ((u : Unknown (List ℕ)) → HasUnknown source u → told u ≡ u)
        → IsUniversal name rules source target
        → IsUniversal name rules source (map (fact_image (λ u. unknown (told u))) target) }
    ensures number_matches { MatchesAreRetold ConstId }
    ensures text_matches { MatchesAreRetold (List ℕ) }
    ensures number_egds { EgdsAreRetold ConstId }
    ensures text_egds { EgdsAreRetold (List ℕ) }
    ensures number_answers { AnswersAreRetold ConstId }
    ensures text_answers { AnswersAreRetold (List ℕ) }
{}

/// The map that leaves each unknown as it is leaves each fact, and two maps after each other are one.
pub fn maps_of_unknowns_compose()
    ensures number_identity { ImagesStay ConstId }
    ensures text_identity { ImagesStay (List ℕ) }
    ensures number_images { ImagesCompose ConstId }
    ensures text_images { ImagesCompose (List ℕ) }
    ensures number_maps { MapsCompose ConstId }
    ensures text_maps { MapsCompose (List ℕ) }
{}

/// What a step of equalities rests on. Where a match of an egd makes an unknown equal to a term, the term may replace it:
/// each homomorphism into an instance in which the egd holds stays one. Two different constants end all homomorphisms.
pub fn equal_sides_may_be_replaced()
    ensures numbers { ReplacingKeepsMaps ConstId }
    ensures texts { ReplacingKeepsMaps (List ℕ) }
    ensures number_clashes { ClashesHaveNoMap ConstId }
    ensures text_clashes { ClashesHaveNoMap (List ℕ) }
{}

/// A coalesced list stays coalesced where its rows become others in the same order.
pub fn rows_in_the_same_order_stay_coalesced()
    ensures { (told : List Term → List (TermOf (List ℕ))) (list : List (StampedOf (List Term)))
        → ((a b : StampedOf (List Term)) → Contains list a → Contains list b
        → stored_cmp (told a.row) (told b.row) ≡ slice_cmp term_cmp a.row b.row)
        → IsCoalesced (slice_cmp term_cmp) list
        → IsCoalesced stored_cmp (map (λ e. record { row = told e.row; span = e.span }) list) }
{}
