//! The laws that a component has one verdict.

ghost use Rattle.component_judge.specs.Components.{HasOneRefusal, HasOneVerdict, IsRefusal};
ghost use Rattle.component_judge.specs.Applications.{ListingIsOne, HasOneListing};

/// The law that bytes call for one refusal at most, besides that memory ran out, whatever they are read for. It does nothing when it runs.
pub fn one_refusal_of_bytes()
    ensures alone { HasOneRefusal IsRefusal }
    ensures listed { ListingIsOne }
{}

/// The law that no component that will do is refused: none that can be run over a script alone, and none that is listed. It does
/// nothing when it runs.
pub fn has_one_verdict()
    ensures alone { HasOneVerdict }
    ensures listed { HasOneListing }
{}
