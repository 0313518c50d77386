//! Laws of the definitions: what stands next is one thing, names are words, and texts in quotes and declarations are
//! read back.

ghost use Rattle.std.specs.Prelude.{◌≡◌, ◌≢◌, ◌⊎◌, ◌↔◌, ◌+◌, ℕ, ◌≤◌, List, ◌++◌, codes, length, Contains};
ghost use Rattle.rule_core.specs.declared.rules.Place.{Place as PlaceValue};
ghost use Rattle.rule_core.specs.declared.rules.Relation.{Relation as RelationValue};
ghost use Rattle.rule_core.specs.Mapping.{RuleSet};
ghost use Rattle.rule_core.specs.Adding.{with_relation};
ghost use Rattle.rule_core.specs.Limits.{longest_name};
ghost use Rattle.rule_core.specs.Names.{IsName};
ghost use Rattle.rule_core.specs.Validity.{IsValid};
ghost use Rattle.decl_text.specs.declared.token.Kind.TheVariants as kinds;
ghost use Rattle.decl_text.specs.declared.token.Token.{Token as TokenValue};
ghost use Rattle.decl_text.specs.declared.fault.MappingFault.{MappingFault as FaultValue};
ghost use Rattle.decl_text.specs.Quotes.{IsQuoted};
ghost use Rattle.decl_text.specs.Tokens.{IsWord, IsNextToken, IsNextFault, IsTokenAt, IsFaultAt};
ghost use Rattle.decl_text.specs.Tests.{IsDecided, Says, Pass};
ghost use Rattle.decl_text.specs.Declaration.{begins, declared, declaration_tests, IsDeclaration, FailsDeclaration};
ghost use Rattle.decl_text.specs.Canonical.{declaration_text};
ghost use Rattle.decl_text.specs.Lexemes.{declaration_lexemes, SayLine};

/// From an offset on, one token stands next, or one fault, and not both: so what `next_token` answers is all
/// that the definitions allow.
pub fn one_token_or_one_fault_stands_next()
    ensures token { (bytes : List ℕ) (from : ℕ) (a b : TokenValue)
        → IsNextToken bytes from a → IsNextToken bytes from b → a ≡ b }
    ensures fault { (bytes : List ℕ) (from : ℕ) (a b : FaultValue)
        → IsNextFault bytes from a → IsNextFault bytes from b → a ≡ b }
    ensures apart { (bytes : List ℕ) (from : ℕ) (a : TokenValue) (b : FaultValue)
        → IsNextToken bytes from a → ¬ (IsNextFault bytes from b) }
    ensures either { (bytes : List ℕ) (from : ℕ)
        → ((token : TokenValue) × IsNextToken bytes from token) ⊎ ((fault : FaultValue) × IsNextFault bytes from fault) }
{}

/// Exactly at an offset one token begins, or none does and one fault stands there: so what `token_at` answers is all
/// that the definitions allow.
pub fn a_place_begins_one_token_or_has_one_fault()
    ensures token { (bytes : List ℕ) (at : ℕ) (a b : TokenValue)
        → IsTokenAt bytes at a → IsTokenAt bytes at b → a ≡ b }
    ensures fault { (bytes : List ℕ) (at : ℕ) (a b : FaultValue)
        → IsFaultAt bytes at a → IsFaultAt bytes at b → a ≡ b }
    ensures apart { (bytes : List ℕ) (at : ℕ) (a : TokenValue) (b : FaultValue)
        → IsTokenAt bytes at a → ¬ (IsFaultAt bytes at b) }
    ensures either { (bytes : List ℕ) (at : ℕ)
        → ((token : TokenValue) × IsTokenAt bytes at token) ⊎ ((fault : FaultValue) × IsFaultAt bytes at fault) }
{}

/// A name of a mapping is a word of its text that is no longer than the longest, and not the word `exists`: letters and
/// bytes of names are the same in both.
pub fn names_are_short_words()
    ensures { (text : List ℕ)
        → IsName text ↔ (IsWord text × (length text ≤ longest_name) × (text ≢ codes "exists")) }
{}

/// A text in quotes is a token wherever it stands, it is of one text, and a text stands in quotes in
/// one way: reading what is printed gives the text again.
pub fn quoted_texts_are_read_back()
    ensures token { (before quoted text rest : List ℕ) → IsQuoted quoted text
        → IsNextToken (before ++ (quoted ++ rest)) (length before) (record {
          kind = kinds.Quoted;
          start = length before;
          end = length before + length quoted;
        }) }
    ensures read { (quoted text other : List ℕ)
        → IsQuoted quoted text → IsQuoted quoted other → text ≡ other }
    ensures printed { (quoted other text : List ℕ)
        → IsQuoted quoted text → IsQuoted other text → quoted ≡ other }
{}

/// From an offset on, one declaration stands, and it ends at one offset; or the line has one first fault;
/// and not both.
pub fn a_declaration_is_one()
    ensures decided { (rules : RuleSet) → IsDecided (declaration_tests rules) }
    ensures one { (bytes : List ℕ) (rules : RuleSet) (from : ℕ) (place other : PlaceValue)
        → (a b : RelationValue) (to end : ℕ) → IsDeclaration bytes rules from place a to
        → IsDeclaration bytes rules from other b end → (place ≡ other) × (a ≡ b) × (to ≡ end) }
    ensures fault { (bytes : List ℕ) (rules : RuleSet) (from : ℕ) (a b : FaultValue)
        → FailsDeclaration bytes rules from a → FailsDeclaration bytes rules from b → a ≡ b }
    ensures apart { (bytes : List ℕ) (rules : RuleSet) (from : ℕ) (place : PlaceValue)
        → (relation : RelationValue) (to : ℕ) (fault : FaultValue)
        → IsDeclaration bytes rules from place relation to
        → ¬ (FailsDeclaration bytes rules from fault) }
    ensures either { (bytes : List ℕ) (rules : RuleSet) (from : ℕ)
        → ((place : PlaceValue) × (relation : RelationValue) × (to : ℕ) × IsDeclaration bytes rules from place relation to)
        ⊎ ((fault : FaultValue) × FailsDeclaration bytes rules from fault) }
{}

/// A relation whose declaration is read from a line fits the mapping before it.
pub fn what_is_declared_fits()
    ensures { (bytes : List ℕ) (rules : RuleSet) (from : ℕ) (place : PlaceValue)
        → (relation : RelationValue) (to : ℕ) → IsValid rules
        → IsDeclaration bytes rules from place relation to
        → IsValid (with_relation rules place relation) }
{}

/// A line that declares a relation has no text in quotes among its tokens.
pub fn declarations_quote_nothing()
    ensures { (bytes : List ℕ) (rules : RuleSet) (from : ℕ) (place : PlaceValue)
        → (relation : RelationValue) (tokens : List TokenValue) (to : ℕ)
        → Pass (declaration_tests rules) bytes from begins tokens to (declared place relation)
        → (token : TokenValue) (text : List ℕ) → Contains tokens token
        → ¬ (Says bytes token (record { kind = kinds.Quoted; text = text })) }
{}

/// A canonical line is read as the declaration from which it was printed, wherever it stands, where the
/// relation may be added.
pub fn declarations_are_read_back()
    ensures { (before rest : List ℕ) (rules : RuleSet) (place : PlaceValue) (relation : RelationValue)
        → IsValid (with_relation rules place relation)
        → IsDeclaration (before ++ (declaration_text place relation ++ rest)) rules (length before) place relation
        (length before + length (declaration_text place relation)) }
{}

/// A declaration is said in one way: the tokens of each line that declares a relation say its words and signs, one
/// each in their order, and then the line ends; and so do the tokens of its canonical line. So two lines that declare
/// one relation differ in blanks, comments and how they end alone.
pub fn declarations_are_said_in_one_way()
    ensures line { (bytes : List ℕ) (rules : RuleSet) (from : ℕ) (place : PlaceValue)
        → (relation : RelationValue) (tokens : List TokenValue) (to : ℕ)
        → Pass (declaration_tests rules) bytes from begins tokens to (declared place relation)
        → SayLine bytes tokens (declaration_lexemes place relation) }
    ensures canonical { (before rest : List ℕ) (rules : RuleSet) (place : PlaceValue) (relation : RelationValue)
        → IsValid (with_relation rules place relation)
        → (tokens : List TokenValue)
        × Pass (declaration_tests rules) (before ++ (declaration_text place relation ++ rest)) (length before)
        begins tokens (length before + length (declaration_text place relation)) (declared place relation)
        × SayLine (before ++ (declaration_text place relation ++ rest)) tokens (declaration_lexemes place relation) }
{}
