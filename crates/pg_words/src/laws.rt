//! What the definition of a plan says of some words and of all, proved.
ghost use Rattle.pg_words.specs.Built.{PlansAreBuilt};
ghost use Rattle.pg_words.specs.Examples.{RefusesNumbers, RefusesOtherOptions, RefusesUnknownAlgorithms, RefusesWords, TakesAlgorithms, TakesCommonOptions, TakesGrids, TakesWords};

/// The definition, computed on words that are written out.
pub fn examples()
    ensures taken { TakesWords }
    ensures algorithms { TakesAlgorithms }
    ensures common_options { TakesCommonOptions }
    ensures grids { TakesGrids }
    ensures refused { RefusesWords }
    ensures numbers { RefusesNumbers }
    ensures other_options { RefusesOtherOptions }
    ensures unknown { RefusesUnknownAlgorithms }
{}

/// No words mean a plan for anything but what is built.
pub fn plans_are_built()
    ensures { PlansAreBuilt }
{}
