//! Bodies of command_lines's public functions, for its must-fail edits to spoil.
ghost use Rattle.std.specs.Prelude.{◌≡◌, ◌++◌, take, IfOk, OnOk};
ghost use Rattle.record_codec.specs.Entries.{counted};
ghost use Rattle.command_defs.specs.Lines.{list_lines, audit_lines, scrub_lines, dropped_line, upgraded_line};
ghost use Rattle.command_defs.specs.Line.{no_row_line};
ghost use Rattle.command_defs.specs.Sinking.{Sinking, WritesLine, TellsLine};

use record_codec::Counts;
use std::alloc::{AllocError, Global};
use stream_model::{Bytes, Memory, Sink};
use vault_table::Table;

/// `push_files`.
pub fn push_files(alloc: Global, text: &mut Vec<u8>, table: &Table) -> Result<(), AllocError>
    ensures { OnOk result (text.new.items ≡ text.old.items ++ list_lines table.now.files) }
{
    command_lines::push_files(alloc, text, table)
}

/// `audit_lines`.
pub fn audit_lines(
    alloc: Global,
    tolerance: u16,
    number: u64,
    undecided: u32,
    counts: &Counts,
) -> Result<Bytes, Memory>
    ensures { IfOk result (λ lines. lines ≡ audit_lines tolerance number undecided (counted counts.now)) }
{
    command_lines::audit_lines(alloc, tolerance, number, undecided, counts)
}

/// `scrub_lines`.
pub fn scrub_lines(
    alloc: Global,
    providers: usize,
    stripes: u64,
    symbols: &[u64; 16],
    blocks: &[u64; 16],
) -> Result<Bytes, Memory>
    ensures { IfOk result (λ lines. lines ≡ scrub_lines stripes (take providers symbols.now)
        (take providers blocks.now)) }
{
    command_lines::scrub_lines(alloc, providers, stripes, symbols, blocks)
}

/// `dropped_line`.
pub fn dropped_line(alloc: Global, name: &[u8]) -> Result<Bytes, Memory>
    ensures { IfOk result (λ line. line ≡ dropped_line name.now) }
{
    command_lines::dropped_line(alloc, name)
}

/// `upgraded_line`.
pub fn upgraded_line() -> &'static [u8]
    ensures { result.now ≡ upgraded_line }
{
    command_lines::upgraded_line()
}

/// `write_text`.
pub fn write_text<K: Sink>(text: &[u8], sink: &mut K) -> u8
    ensures writes { WritesLine text.now result
        (record {
          old = K.written sink.old;
          new = K.written sink.new;
          before = K.faults sink.old;
          now = K.faults sink.new;
        }) }
{
    command_lines::write_text(text, sink)
}

/// `tell_no_row`.
pub fn tell_no_row<K: Sink>(sink: &mut K) -> u8
    ensures tells { TellsLine 4 no_row_line result
        (record {
          old = K.written sink.old;
          new = K.written sink.new;
          before = K.faults sink.old;
          now = K.faults sink.new;
        }) }
{
    command_lines::tell_no_row(sink)
}
