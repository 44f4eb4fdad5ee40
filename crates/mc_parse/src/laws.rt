//! Laws of the grammar, each the contract of a function that does nothing.

ghost use Rattle.std.specs.Prelude.{◌≡◌, ◌<◌, ℕ, List, ◌++◌, length, Some, true, false, codes};
ghost use Rattle.std.specs.List.{fold, concat};
ghost use Rattle.mc_parse.specs.Units.{Spells, ProtocolUnit};
ghost use Rattle.mc_parse.specs.Streams.{AreUnits};
ghost use Rattle.mc_parse.specs.Feeds.{Unread, pushed, IsSettled};
ghost use Rattle.mc_parse.specs.Lines.{name_of};
ghost use Rattle.mc_parse.specs.declared.name.Name.{Name};
ghost use Rattle.mc_protocol.specs.declared.lone.Lone.{Lone};
ghost use Rattle.mc_protocol.specs.declared.step.Verb.{Verb};

/// States that no spelling is the beginning of another. It does nothing.
pub fn no_spelling_begins_another()
    ensures { (greatest : ℕ) (u v : ProtocolUnit) (a b x y : List ℕ) →
        Spells greatest u a → Spells greatest v b → a ++ x ≡ b ++ y → (u ≡ v) × (a ≡ b) }
{}

/// States that a spelling has at least one byte. It does nothing.
pub fn a_spelling_has_a_byte()
    ensures { (greatest : ℕ) (unit : ProtocolUnit) (front : List ℕ) →
        Spells greatest unit front → 0 < length front }
{}

/// States that a stream has exactly one list of units. It does nothing.
pub fn one_list_of_units()
    ensures some { (greatest passed : ℕ) (bytes : List ℕ) →
        (units : List ProtocolUnit) × AreUnits greatest passed bytes units }
    ensures same { (greatest passed : ℕ) (bytes : List ℕ) (units others : List ProtocolUnit) →
        AreUnits greatest passed bytes units → AreUnits greatest passed bytes others →
        units ≡ others }
{}

/// States that two pieces leave the same as the two joined. It does nothing.
pub fn cutting_does_not_matter()
    ensures { (unread : Unread) (piece more : List ℕ) →
        pushed (pushed unread piece) more ≡ pushed unread (piece ++ more) }
{}

/// States that any number of pieces leave the same as all of them joined. It does nothing.
pub fn pieces_are_fed_as_joined()
    ensures { (unread : Unread) (pieces : List (List ℕ)) →
        IsSettled unread → fold pushed unread pieces ≡ pushed unread (concat pieces) }
{}

/// States which command each of the 17 words names. It does nothing.
///
/// The definition of a line reads these words in `NAMES`.
pub fn names_of_the_protocol()
    ensures get { name_of (codes "get") ≡ Some (Name.Get false) }
    ensures gets { name_of (codes "gets") ≡ Some (Name.Get true) }
    ensures gat { name_of (codes "gat") ≡ Some (Name.GetTouch false) }
    ensures gats { name_of (codes "gats") ≡ Some (Name.GetTouch true) }
    ensures set { name_of (codes "set") ≡ Some (Name.Store Verb.Set) }
    ensures add { name_of (codes "add") ≡ Some (Name.Store Verb.Add) }
    ensures replace { name_of (codes "replace") ≡ Some (Name.Store Verb.Replace) }
    ensures append { name_of (codes "append") ≡ Some (Name.Store Verb.Append) }
    ensures prepend { name_of (codes "prepend") ≡ Some (Name.Store Verb.Prepend) }
    ensures cas { name_of (codes "cas") ≡ Some Name.Cas }
    ensures touch { name_of (codes "touch") ≡ Some Name.Touch }
    ensures delete { name_of (codes "delete") ≡ Some Name.Delete }
    ensures incr { name_of (codes "incr") ≡ Some (Name.Count true) }
    ensures decr { name_of (codes "decr") ≡ Some (Name.Count false) }
    ensures flush_all { name_of (codes "flush_all") ≡ Some Name.FlushAll }
    ensures version { name_of (codes "version") ≡ Some (Name.Lone Lone.Version) }
    ensures quit { name_of (codes "quit") ≡ Some (Name.Lone Lone.Quit) }
{}
