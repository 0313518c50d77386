//! Laws of the definitions: a line states one rule, which fits, or has one first fault; a rule's constants
//! are the texts in its quotes; and rules are read back, and are said in one way.

ghost use Rattle.std.specs.Prelude.{◌≡◌, ◌↔◌, ◌⊎◌, ◌+◌, ℕ, ◌≤◌, List, ◌++◌, length, Some, slice_get, All, IsUtf8};
ghost use Rattle.decl_text.specs.declared.fault.MappingFault.{MappingFault as FaultValue};
ghost use Rattle.decl_text.specs.Lexemes.{SayLine};
ghost use Rattle.decl_text.specs.Tests.{IsDecided, Pass};
ghost use Rattle.decl_text.specs.TokenList.{KnowsTexts};
ghost use Rattle.decl_text.specs.declared.token.Token.{Token as TokenValue};
ghost use Rattle.term_core.specs.Pool.{IsPool};
ghost use Rattle.term_core.specs.declared.const_id.ConstId.{ConstId};
ghost use Rattle.rule_core.specs.Limits.{longest_constant};
ghost use Rattle.rule_core.specs.Mapping.{RuleSet};
ghost use Rattle.rule_core.specs.Validity.{IsValid};
ghost use Rattle.rule_text.specs.declared.rule.Rule.{Rule as RuleValue};
ghost use Rattle.rule_text.specs.Adding.{with_rule};
ghost use Rattle.rule_text.specs.Canonical.{rule_text};
ghost use Rattle.rule_text.specs.Constants.{HasConstant, NeedsText, IsQuotedAmong, HasTexts};
ghost use Rattle.rule_text.specs.Lexemes.{rule_lexemes};
ghost use Rattle.rule_text.specs.RuleLine.{begins, stated, rule_tests, IsRule, FailsRule};

/// From an offset on, one rule is stated, and its line ends at one offset; or the line has one first fault;
/// and not both. The texts in its quotes are to be in the pool.
pub fn a_rule_is_one()
    ensures decided { (rules : RuleSet) (pool : List (List ℕ)) → IsDecided (rule_tests rules pool) }
    ensures one { (bytes : List ℕ) (rules : RuleSet) (pool : List (List ℕ)) (from : ℕ) (a b : RuleValue)
        → (to end : ℕ) → IsRule bytes rules pool from a to → IsRule bytes rules pool from b end
        → (a ≡ b) × (to ≡ end) }
    ensures fault { (bytes : List ℕ) (rules : RuleSet) (pool : List (List ℕ)) (from : ℕ) (a b : FaultValue)
        → FailsRule bytes rules pool from a → FailsRule bytes rules pool from b → a ≡ b }
    ensures apart { (bytes : List ℕ) (rules : RuleSet) (pool : List (List ℕ)) (from : ℕ) (rule : RuleValue)
        → (to : ℕ) (fault : FaultValue) → IsRule bytes rules pool from rule to
        → ¬ (FailsRule bytes rules pool from fault) }
    ensures either { (bytes : List ℕ) (rules : RuleSet) (pool : List (List ℕ)) (from : ℕ)
        → KnowsTexts bytes from pool
        → ((rule : RuleValue) × (to : ℕ) × IsRule bytes rules pool from rule to)
        ⊎ ((fault : FaultValue) × FailsRule bytes rules pool from fault) }
{}

/// A rule that is read from a line fits the mapping before it.
pub fn what_is_read_fits()
    ensures { (bytes : List ℕ) (rules : RuleSet) (pool : List (List ℕ)) (from : ℕ) (rule : RuleValue)
        → (to : ℕ) → IsValid rules → IsRule bytes rules pool from rule to
        → IsValid (with_rule rules rule) }
{}

/// In a line that states a rule, the texts in quotes are those of the rule's constants in the pool: each
/// is no longer than the longest, and each constant has one.
pub fn constants_are_the_quoted_texts()
    ensures same { (rules : RuleSet) (pool : List (List ℕ)) (bytes : List ℕ) (from : ℕ) (rule : RuleValue)
        → (tokens : List TokenValue) (to : ℕ)
        → Pass (rule_tests rules pool) bytes from begins tokens to (stated rule)
        → (text : List ℕ) → IsQuotedAmong bytes tokens text ↔ NeedsText pool rule text }
    ensures short { (rules : RuleSet) (pool : List (List ℕ)) (bytes : List ℕ) (from : ℕ) (rule : RuleValue)
        → (tokens : List TokenValue) (to : ℕ)
        → Pass (rule_tests rules pool) bytes from begins tokens to (stated rule)
        → (text : List ℕ) → IsQuotedAmong bytes tokens text → length text ≤ longest_constant }
    ensures known { (rules : RuleSet) (pool : List (List ℕ)) (bytes : List ℕ) (from : ℕ) (rule : RuleValue)
        → (tokens : List TokenValue) (to : ℕ)
        → Pass (rule_tests rules pool) bytes from begins tokens to (stated rule)
        → (c : ConstId) → HasConstant rule c → (text : List ℕ) × (slice_get pool c.0 ≡ Some text) }
{}

/// A canonical line is read as the rule from which it was printed, wherever it stands, where the rule
/// may be added and each of its constants has a text that is not too long.
pub fn rules_are_read_back()
    ensures { (before rest : List ℕ) (rules : RuleSet) (pool : List (List ℕ)) (rule : RuleValue)
        → IsValid (with_rule rules rule) → IsPool pool → All IsUtf8 pool
        → HasTexts pool (λ text. length text ≤ longest_constant) rule
        → IsRule (before ++ (rule_text rules pool rule ++ rest)) rules pool (length before) rule
        (length before + length (rule_text rules pool rule)) }
{}

/// A rule is said in one way: the tokens of each line that states a rule say its words, signs and texts, one each in
/// their order, and then the line ends; and so do the tokens of its canonical line. So two lines that state one rule
/// differ in blanks, comments and how they end alone.
pub fn rules_are_said_in_one_way()
    ensures line { (bytes : List ℕ) (rules : RuleSet) (pool : List (List ℕ)) (from : ℕ) (rule : RuleValue)
        → (tokens : List TokenValue) (to : ℕ)
        → Pass (rule_tests rules pool) bytes from begins tokens to (stated rule)
        → SayLine bytes tokens (rule_lexemes rules pool rule) }
    ensures canonical { (before rest : List ℕ) (rules : RuleSet) (pool : List (List ℕ)) (rule : RuleValue)
        → IsValid (with_rule rules rule) → IsPool pool → All IsUtf8 pool
        → HasTexts pool (λ text. length text ≤ longest_constant) rule
        → (tokens : List TokenValue)
        × Pass (rule_tests rules pool) (before ++ (rule_text rules pool rule ++ rest)) (length before)
        begins tokens (length before + length (rule_text rules pool rule)) (stated rule)
        × SayLine (before ++ (rule_text rules pool rule ++ rest)) tokens (rule_lexemes rules pool rule) }
{}
