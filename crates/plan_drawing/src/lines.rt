//! What a document says of a node, line by line.

ghost use Rattle.std.specs.Prelude.{◌≡◌, ◌++◌, OnOk, map};
ghost use Rattle.std.specs.List.{flat_map};
ghost use Rattle.plan_drawing.specs.Labels.{args_lines, bar_line, delay_text, early_lines};
ghost use Rattle.plan_drawing.specs.Labels.{estimator_line, file_line, kind_lines, label_of};
ghost use Rattle.plan_drawing.specs.Labels.{late_lines, line_break, log_lines, strategy_line};
ghost use Rattle.plan_drawing.specs.Labels.{trigger_lines};

use crate::label::{
    push_count_line, push_line, push_number_line, push_span, push_span_line, push_text,
    push_text_line, push_word_line,
};
use crate::words::{function_word, mode_word, source_word, state_word};
use beam_values::{Args, Bar, Bytes, Estimator, List, NoMemory, NodeKind, Strategy, Trigger};

/// Appends the label of a node: its name, and what its document says of it.
pub(crate) fn push_label(name: &[u8], kind: &NodeKind, out: &mut List<u8>) -> Result<(), NoMemory>
    ensures { OnOk result (out.new ≡ out.old ++ label_of name.now kind.now) }
{
    push_text(name, out)?;
    push_kind(kind, out)
}

#[tactic(auto, using(crate::proofs::Joined::lines_append))]
fn push_kind(kind: &NodeKind, out: &mut List<u8>) -> Result<(), NoMemory>
    ensures { OnOk result
        (out.new ≡ out.old ++ flat_map (λ line. line_break ++ line) (kind_lines kind.now)) }
{
    match kind {
        NodeKind::Source {
            work,
            args,
            files,
            estimator,
        } => {
            push_word_line(b"source ", source_word(*work), out)?;
            push_args(args, out)?;
            push_files(files.as_slice(), out)?;
            push_estimator(*estimator, out)
        }
        NodeKind::ParDo { work, args } => {
            push_word_line(b"pardo ", function_word(*work), out)?;
            push_args(args, out)
        }
        NodeKind::Flatten => push_line(b"flatten", out),
        NodeKind::WindowInto { strategy } => {
            push_line(b"window", out)?;
            push_strategy(strategy, out)
        }
        NodeKind::Group { trigger } => {
            push_line(b"group", out)?;
            push_trigger(trigger, out)
        }
        NodeKind::Stateful { work, args, log } => {
            push_word_line(b"stateful ", state_word(*work), out)?;
            push_args(args, out)?;
            push_log(*log, out)
        }
        NodeKind::Write { label } => {
            push_line(b"write", out)?;
            push_text_line(b"label ", label.as_slice(), out)
        }
    }
}

fn push_args(args: &Args, out: &mut List<u8>) -> Result<(), NoMemory>
    ensures { OnOk result
        (out.new ≡ out.old ++ flat_map (λ line. line_break ++ line) (args_lines args.now)) }
{
    match args {
        Args::Nothing => Ok(()),
        Args::Text(text) => push_text_line(b"text ", text.as_slice(), out),
        Args::Number(number) => push_number_line(b"number ", *number, out),
        Args::Two(count, number) => {
            push_count_line(b"count ", *count, out)?;
            push_count_line(b"number ", *number, out)
        }
    }
}

fn push_files(files: &[Bytes], out: &mut List<u8>) -> Result<(), NoMemory>
    ensures { OnOk result
        (out.new ≡ out.old ++ flat_map (λ line. line_break ++ line) (map file_line files.now)) }
{
    for file in files {
        push_text_line(b"file ", file.as_slice(), out)?;
    }
    Ok(())
}

fn push_estimator(estimator: Estimator, out: &mut List<u8>) -> Result<(), NoMemory>
    ensures { OnOk result (out.new ≡ out.old ++ (line_break ++ estimator_line estimator)) }
{
    match estimator {
        Estimator::None => push_line(b"estimator none", out),
        Estimator::Monotonic => push_line(b"estimator monotonic", out),
        Estimator::Lag(delay) => push_span_line(b"estimator lag ", delay, out),
        Estimator::Declared => push_line(b"estimator declared", out),
    }
}

fn push_strategy(strategy: &Strategy, out: &mut List<u8>) -> Result<(), NoMemory>
    ensures { OnOk result (out.new ≡ out.old ++ (line_break ++ strategy_line strategy.now)) }
{
    match strategy {
        Strategy::Global => push_line(b"global", out),
        Strategy::Fixed { size } => push_span_line(b"fixed, size ", *size, out),
        Strategy::Sliding { size, period } => {
            push_span_line(b"sliding, size ", *size, out)?;
            push_span(b", period ", *period, out)
        }
        Strategy::Sessions { gap } => push_span_line(b"sessions, gap ", *gap, out),
        Strategy::Kept => push_line(b"kept", out),
    }
}

#[tactic(auto, using(crate::proofs::Joined::lines_append))]
fn push_trigger(trigger: &Trigger, out: &mut List<u8>) -> Result<(), NoMemory>
    ensures { OnOk result
        (out.new ≡ out.old ++ flat_map (λ line. line_break ++ line) (trigger_lines trigger.now)) }
{
    push_early(trigger.early, out)?;
    push_bars(b"early ", trigger.early_bars.as_slice(), out)?;
    push_late(trigger.late, trigger.late_bars.as_slice(), out)?;
    push_span_line(b"lateness ", trigger.lateness, out)?;
    push_line(mode_word(trigger.mode), out)
}

fn push_early(early: Option<u32>, out: &mut List<u8>) -> Result<(), NoMemory>
    ensures { OnOk result
        (out.new ≡ out.old ++ flat_map (λ line. line_break ++ line) (early_lines early)) }
{
    match early {
        None => Ok(()),
        Some(count) => push_count_line(b"early ", count.into(), out),
    }
}

// The count has no say where there are bars.
fn push_late(late: u32, bars: &[Bar], out: &mut List<u8>) -> Result<(), NoMemory>
    ensures { OnOk result
        (out.new ≡ out.old ++ flat_map (λ line. line_break ++ line) (late_lines late bars.now)) }
{
    if bars.is_empty() {
        push_count_line(b"late ", late.into(), out)
    } else {
        push_bars(b"late ", bars, out)
    }
}

fn push_bars(words: &[u8], bars: &[Bar], out: &mut List<u8>) -> Result<(), NoMemory>
    ensures { OnOk result (out.new
        ≡ out.old ++ flat_map (λ line. line_break ++ line) (map (bar_line words.now) bars.now)) }
{
    for bar in bars {
        push_bar(words, bar, out)?;
    }
    Ok(())
}

fn push_bar(words: &[u8], bar: &Bar, out: &mut List<u8>) -> Result<(), NoMemory>
    ensures { OnOk result (out.new ≡ out.old ++ (line_break ++ bar_line words.now bar.now)) }
{
    push_count_line(words, bar.count.into(), out)?;
    push_delay(bar.delay, out)
}

fn push_delay(delay: Option<i64>, out: &mut List<u8>) -> Result<(), NoMemory>
    ensures { OnOk result (out.new ≡ out.old ++ delay_text delay) }
{
    match delay {
        None => Ok(()),
        Some(delay) => push_span(b" from ", delay, out),
    }
}

fn push_log(log: bool, out: &mut List<u8>) -> Result<(), NoMemory>
    ensures { OnOk result
        (out.new ≡ out.old ++ flat_map (λ line. line_break ++ line) (log_lines log)) }
{
    if log { push_line(b"log", out) } else { Ok(()) }
}
