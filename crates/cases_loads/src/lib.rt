// A claim about the sender's definitions, as the contract of a function that does nothing: a load by each port, and what the calls say.
#![tactic(auto)]

ghost use Rattle.cases_rules.specs.Trials.{Agree};
ghost use Rattle.cases_loads.specs.Loads.{load_table};

// Each case holds by computation.
#[tactic(auto, unfolding(crate::specs::Loads::load_table, octets::specs::Same::same, sram::specs::Region::size, sram::specs::Region::base, sram::specs::Region::in_range, header::specs::Reading::validated, sender_load::specs::Items::part, sender_load::specs::Items::along, sender_load::specs::Items::pieces, sender_load::specs::Items::beginning_at, sender_load::specs::Items::sound_load, sender_echo::specs::Hearing::is_echo, sender::specs::Calls::load_begun, sender::specs::Calls::heeded, sender::specs::Calls::asked, sender::specs::Calls::told))]
pub fn loads_agree()
    ensures { Agree load_table }
{}
