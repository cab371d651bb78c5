//! What lines call files, settings, rules and quantities.
ghost use Rattle.std.specs.Prelude.{◌≡◌, ◌≤◌, length};
ghost use Rattle.annbuild_lines.specs.Lines.{setting_name, points_rule_name, index_rule_name, gone_rule_name, label_rule_name, rule_name, what_name, wanted_from, quantity_name};

use crate::rules::{GoneRule, LabelRule};
use crate::{Rule, What};
use ann_shelf::Quantity;
use bin_files::PointsRule;
use command_options::SettingName;
use graph_files::IndexRule;

/// What lines call a setting: its option's name without the dashes.
pub fn setting_text(name: SettingName) -> &'static str
    ensures name { result.now ≡ setting_name name }
    ensures short { length result.now ≤ 9 }
{
    match name {
        SettingName::Kind => "kind",
        SettingName::Workers => "workers",
        SettingName::Degree => "degree",
        SettingName::Beam => "beam",
        SettingName::AlphaDen => "alpha-den",
        SettingName::AlphaNum => "alpha-num",
        SettingName::Cap => "cap",
        SettingName::Passes => "passes",
        SettingName::Bits => "bits",
        SettingName::MaxLevel => "max-level",
        SettingName::List => "list",
        SettingName::Trees => "trees",
        SettingName::Leaf => "leaf",
        SettingName::RoundCount => "rounds",
        SettingName::Format => "format",
        SettingName::Count => "count",
        SettingName::Dim => "dim",
        SettingName::QueryCount => "queries",
        SettingName::Search => "search",
        SettingName::K => "k",
        SettingName::Callers => "callers",
        SettingName::Label => "label",
    }
}

/// The name of a rule of a file of points.
fn points_rule_text(rule: PointsRule) -> &'static str
    ensures name { result.now ≡ points_rule_name rule }
    ensures short { length result.now ≤ 12 }
{
    match rule {
        PointsRule::ShortHeader => "short header",
        PointsRule::ZeroCount => "zero count",
        PointsRule::ZeroDim => "zero dim",
        PointsRule::ShortBody => "short body",
        PointsRule::Trailing => "trailing",
    }
}

/// The name of a rule of an index file.
fn index_rule_text(rule: IndexRule) -> &'static str
    ensures name { result.now ≡ index_rule_name rule }
    ensures short { length result.now ≤ 12 }
{
    match rule {
        IndexRule::ShortHeader => "short header",
        IndexRule::Magic => "magic",
        IndexRule::Version => "version",
        IndexRule::Kind => "kind",
        IndexRule::ZeroCount => "zero count",
        IndexRule::ZeroDim => "zero dim",
        IndexRule::Degree => "degree",
        IndexRule::Start => "start",
        IndexRule::Layers => "layers",
        IndexRule::LayerIds => "layer ids",
        IndexRule::IdRange => "id range",
        IndexRule::SelfEdge => "self edge",
        IndexRule::DoubleEdge => "double edge",
        IndexRule::Short => "short",
        IndexRule::Trailing => "trailing",
        IndexRule::Stamp => "stamp",
    }
}

/// The name of a rule of a file of ids.
fn gone_rule_text(rule: GoneRule) -> &'static str
    ensures name { result.now ≡ gone_rule_name rule }
    ensures short { length result.now ≤ 12 }
{
    match rule {
        GoneRule::ShortHeader => "short header",
        GoneRule::AllGone => "all gone",
        GoneRule::Order => "order",
        GoneRule::IdRange => "id range",
        GoneRule::Short => "short",
        GoneRule::Trailing => "trailing",
    }
}

/// The name of a rule of a file of labels.
fn label_rule_text(rule: LabelRule) -> &'static str
    ensures name { result.now ≡ label_rule_name rule }
    ensures short { length result.now ≤ 12 }
{
    match rule {
        LabelRule::ShortHeader => "short header",
        LabelRule::ZeroCount => "zero count",
        LabelRule::Short => "short",
        LabelRule::ZeroMask => "zero mask",
        LabelRule::Trailing => "trailing",
    }
}

/// The name of a rule.
pub fn rule_text(rule: Rule) -> &'static str
    ensures name { result.now ≡ rule_name rule }
    ensures short { length result.now ≤ 12 }
{
    match rule {
        Rule::Points(rule) => points_rule_text(rule),
        Rule::Index(rule) => index_rule_text(rule),
        Rule::Gone(rule) => gone_rule_text(rule),
        Rule::Labels(rule) => label_rule_text(rule),
    }
}

/// What two files differ in.
pub fn what_text(what: What) -> &'static str
    ensures name { result.now ≡ what_name what }
    ensures short { length result.now ≤ 7 }
{
    match what {
        What::Count => "count",
        What::Dim => "dim",
        What::Element => "element",
        What::Digest => "digest",
        What::Kind => "kind",
    }
}

/// What a limit speaks of.
pub fn quantity_text(name: Quantity) -> &'static str
    ensures name { result.now ≡ quantity_name name }
    ensures short { length result.now ≤ 7 }
{
    match name {
        Quantity::Count => "count",
        Quantity::Dim => "dim",
        Quantity::Degree => "degree",
        Quantity::Cells => "cells",
        Quantity::Words => "words",
        Quantity::Answers => "answers",
    }
}

/// Where the wanted number of two that differ is from.
pub fn wanted_text(what: What) -> &'static str
    ensures text { result.now ≡ wanted_from what }
    ensures short { length result.now ≤ 8 }
{
    match what {
        What::Kind => " wanted",
        _ => " in data",
    }
}
