//! What holds of the members of all sound models: each function here only carries its clauses.

ghost use Rattle.tdf_save_members.specs.Laws.{MembersAreApart, MembersAreInLines};

/// The text of a snapshot of a sound model names each event by one name, and each path, name and
/// label of its members stands in one line.
pub fn law_members()
    ensures apart { MembersAreApart }
    ensures lines { MembersAreInLines }
{}
