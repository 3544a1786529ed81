//! The laws of what was frozen and of runs in memory, each a public function whose contract is the law.

ghost use Rattle.std.specs.Prelude.{ℕ, List};
ghost use Rattle.fz_base.specs.MemorySinks.{sure_room};
ghost use Rattle.fz_base.specs.declared.memory_files.SureFiles.{SureFiles as InMemory};
ghost use Rattle.fz_base.specs.declared.memory_sinks.SureSink.{SureSink as ToMemory};
ghost use Rattle.frozen_cli.specs.Changes.{seen, sent};
ghost use Rattle.frozen_cli.specs.Laws.{FrozenThaws, HasRoom, IsReplied};
ghost use Rattle.frozen_cli.specs.Run.{Runs};

use demo_table::{own_file_is_short, own_file_thaws};
use evolve::binding_has_one_answer;
use fz_base::{Files, Sink, SureFiles, SureSink};
use thrift_idl::texts_have_one_answer;

/// Where a file holds what `freeze` gave of a definition and a value, `thaw` of it under the same definition
/// gives the canonical spelling of the value, and nothing else: it refuses only what cannot be read.
pub fn frozen_thaws()
    ensures { FrozenThaws }
{
    texts_have_one_answer();
    binding_has_one_answer();
    own_file_is_short();
    own_file_thaws();
}

/// What a run does to files in memory that never fail, and to two sinks in memory that fail only where they are full and
/// have room left behind it, is what the reply says: it ends with the reply's status, 0 to 4, or with 6 for want of memory.
pub fn run_in_memory_is_replied()
    ensures { (words : List (List ℕ)) (files files_after : InMemory) (out out_after err err_after : ToMemory)
        (status : ℕ) → let read = seen ⟦<SureFiles as Files>⟧.held ⟦<SureFiles as Files>⟧.misses
        ⟦<SureFiles as Files>⟧.faults files files_after in
        let to_out = sent ⟦<SureSink as Sink>⟧.written ⟦<SureSink as Sink>⟧.faults out out_after in
        let to_err = sent ⟦<SureSink as Sink>⟧.written ⟦<SureSink as Sink>⟧.faults err err_after in
        Runs words read to_out to_err status
        → HasRoom (⟦<SureSink as Sink>⟧.written out_after) (sure_room out_after)
        → HasRoom (⟦<SureSink as Sink>⟧.written err_after) (sure_room err_after)
        → IsReplied words read to_out to_err status }
{}
