//! Laws of clause forms, refutations and the search machine. Each function computes nothing: its
//! clause is the law.
ghost use Rattle.cqe_base.specs.MachineLaws.{ResolutionIsSound, RefutationIsSound, ModelsAreWorlds};
ghost use Rattle.cqe_base.specs.MachineLaws.{ModelGivesWorld, ClauseFormIsPrefix, NumberingGoesOn};
ghost use Rattle.cqe_base.specs.MachineLaws.{NumberingsAreProper, NumberedFactsStay};
ghost use Rattle.cqe_base.specs.MachineLaws.{NumberedFactsAreOfSchema, ClauseFormUsesItsVariables};
ghost use Rattle.cqe_base.specs.MachineLaws.{ClauseFormHasNoRepeat, VariablesAreFew};
ghost use Rattle.cqe_base.specs.MachineLaws.{NumberedFactsAreFew, NumberedFactsOccur};
ghost use Rattle.cqe_base.specs.MachineLaws.{GroundedFactsAreOfSchema, MachineHasOneEnd};
ghost use Rattle.cqe_base.specs.MachineLaws.{BudgetIsWholeCost, MachineEndsWithinBound};
ghost use Rattle.cqe_base.specs.MachineLaws.{MachineEndsAreRight, GroundFollowsEntails};
ghost use Rattle.cqe_base.specs.MachineLaws.{GroundOpenIsOpen, RefutationEntails};
ghost use Rattle.cqe_base.specs.MachineLaws.{ModelIsCountermodel, SpentIsCost, EnoughIsNeverSpent};
ghost use Rattle.cqe_base.specs.KeptTrail.{KeptBeginsKept, KeptStaysWithMore, KeptStaysWithout};
ghost use Rattle.cqe_base.specs.KeptTrail.{KeptIsReached, SearchGoesOnFromKept};
ghost use Rattle.cqe_base.specs.KeptTrail.{ProbeGoesOnFromKept, ProbeIsRefutedAtKept};
ghost use Rattle.cqe_base.specs.KeptTrail.{LowestIsKeptOrProbes, LowestUnitIsKeptOrProbes};
ghost use Rattle.cqe_base.specs.KeptTrail.{FalsifiedFromItsPlace, LineOfBeginningIsLine};
ghost use Rattle.cqe_base.specs.KeptTrail.{ProbeIsRefutedAtItsPlace};
ghost use Rattle.cqe_base.specs.KeptTrail.{ProbeGoesOnWhereNoneIsFalsified};
ghost use Rattle.cqe_base.specs.Trace.{WorkedTrace};

/// The resolvent of two true clauses is true.
pub fn law_resolution_is_sound()
    ensures { ResolutionIsSound }
{}

/// Where a refutation is right, no signs make every given clause true.
pub fn law_refutation_is_sound()
    ensures { RefutationIsSound }
{}

/// A clause form has a model exactly where its list can be made true.
pub fn law_models_are_worlds()
    ensures { ModelsAreWorlds }
{}

/// The numbered facts that a model of a clause form makes true are a world in which the list is
/// true.
pub fn law_model_gives_world()
    ensures { ModelGivesWorld }
{}

/// The clauses of a list are a prefix of those of each longer list that begins with it.
pub fn law_clause_form_is_prefix()
    ensures { ClauseFormIsPrefix }
{}

/// The numbering of a longer list goes on from that of the list with which it begins.
pub fn law_numbering_goes_on()
    ensures { NumberingGoesOn }
{}

/// The clauses of a list use only variables that its numbering has taken.
pub fn law_clause_form_uses_its_variables()
    ensures { ClauseFormUsesItsVariables }
{}

/// No clause of a clause form has a literal twice.
pub fn law_clause_form_has_no_repeat()
    ensures { ClauseFormHasNoRepeat }
{}

/// Beside the constant a list takes at most one variable for each node.
pub fn law_variables_are_few()
    ensures { VariablesAreFew }
{}

/// A list has fewer numbered facts than variables.
pub fn law_numbered_facts_are_few()
    ensures { NumberedFactsAreFew }
{}

/// Each fact that has a number occurs in a formula of the list.
pub fn law_numbered_facts_occur()
    ensures { NumberedFactsOccur }
{}

/// The facts of a grounded sentence of a valid schema are facts of the schema.
pub fn law_grounded_facts_are_of_schema()
    ensures { GroundedFactsAreOfSchema }
{}

/// The machine has at most one end, with one whole cost.
pub fn law_machine_has_one_end()
    ensures { MachineHasOneEnd }
{}

/// An end is found within a budget exactly where its whole cost is at most the budget.
pub fn law_budget_is_whole_cost()
    ensures { BudgetIsWholeCost }
{}

/// The machine ends, and its whole cost is within a bound.
pub fn law_machine_ends()
    ensures { MachineEndsWithinBound }
{}

/// Each refutation and each model of the machine is right.
pub fn law_machine_ends_are_right()
    ensures { MachineEndsAreRight }
{}

/// Ground premises whose outcome is that the goal follows entail it.
pub fn law_ground_follows_entails()
    ensures { GroundFollowsEntails }
{}

/// Ground premises whose outcome is open are true somewhere where the goal is false.
pub fn law_ground_open_is_open()
    ensures { GroundOpenIsOpen }
{}

/// A right refutation of a probe's clause form shows, without a search, that the premises entail
/// the goal.
pub fn law_refutation_entails()
    ensures { RefutationEntails }
{}

/// The world of a right model of a probe's clause form is one of the schema, with the premises true
/// and the goal false.
pub fn law_model_is_countermodel()
    ensures { ModelIsCountermodel }
{}

/// A budget is spent exactly where the whole cost of the machine is above it.
pub fn law_spent_is_cost()
    ensures { SpentIsCost }
{}

/// A budget of at least the bound is never spent.
pub fn law_enough_is_never_spent()
    ensures { EnoughIsNeverSpent }
{}

/// The worked run, with its clauses, ends and whole costs.
pub fn law_worked_trace()
    ensures { WorkedTrace }
{}

/// The facts that a list numbers are the first of those that each longer list numbers.
pub fn law_numbered_facts_stay()
    ensures { NumberedFactsStay }
{}

/// A list numbers each fact once, and uses each number once.
pub fn law_numberings_are_proper()
    ensures { NumberingsAreProper }
{}

/// The facts that a list of grounded sentences of a valid schema numbers are facts of the schema.
pub fn law_numbered_facts_are_of_schema()
    ensures { NumberedFactsAreOfSchema }
{}

/// The beginnings of a kept trail are kept.
pub fn law_kept_begins_kept()
    ensures { KeptBeginsKept }
{}

/// A kept trail stays kept with more clauses behind, where none of them was falsified before its
/// last entry.
pub fn law_kept_stays_with_more()
    ensures { KeptStaysWithMore }
{}

/// A kept trail stays kept without the last clauses, where none of them is a cause.
pub fn law_kept_stays_without()
    ensures { KeptStaysWithout }
{}

/// What holds of each state that the machine reaches holds of a kept trail, whatever clauses stand
/// behind.
pub fn law_kept_is_reached()
    ensures { KeptIsReached }
{}

/// The machine comes by a kept trail, at a cost of one for each entry.
pub fn law_search_goes_on_from_kept()
    ensures { SearchGoesOnFromKept }
{}

/// A probe's search goes on from the kept trail, with the budget that its entries leave.
pub fn law_probe_goes_on_from_kept()
    ensures { ProbeGoesOnFromKept }
{}

/// Where a clause is falsified by a kept trail, the machine ends with its refutation.
pub fn law_probe_is_refuted_at_kept()
    ensures { ProbeIsRefutedAtKept }
{}

/// The lowest falsified clause is a kept one, or else one of the probe's.
pub fn law_lowest_is_kept_or_probes()
    ensures { LowestIsKeptOrProbes }
{}

/// A clause that a beginning of a kept trail falsifies has the same line under all of it.
pub fn law_line_of_beginning_is_line()
    ensures { LineOfBeginningIsLine }
{}

/// The lowest unit clause is a kept one, or else one of the probe's.
pub fn law_lowest_unit_is_kept_or_probes()
    ensures { LowestUnitIsKeptOrProbes }
{}

/// A beginning of a trail falsifies a clause exactly where all of it does and the beginning goes as
/// far as the clause's place.
pub fn law_falsified_from_its_place()
    ensures { FalsifiedFromItsPlace }
{}

/// Where a kept trail falsifies a clause, the machine ends at the first such one, and its line is
/// read off the whole trail.
pub fn law_probe_is_refuted_at_its_place()
    ensures { ProbeIsRefutedAtItsPlace }
{}

/// Where a kept trail falsifies no clause of a probe, the search goes on from it.
pub fn law_probe_goes_on_where_none_is_falsified()
    ensures { ProbeGoesOnWhereNoneIsFalsified }
{}
