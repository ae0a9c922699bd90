// Laws of the tables and of the rules. A call does nothing.
ghost use Rattle.command_files.specs.RowLaws.{AddsSignature, AddsText};
ghost use Rattle.command_files.specs.RuleLaws.{HasARule, HasFewRules};

/// The laws of rows: a row that is added is found by its own question, and no other answer changes.
pub fn rows_are_found()
    ensures signatures { AddsSignature }
    ensures texts { AddsText }
{}

/// The laws of rules: a policy file that is read has a rule, and no more than 64.
pub fn rules_are_few()
    ensures some { HasARule }
    ensures few { HasFewRules }
{}
