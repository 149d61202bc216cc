//! The definitions on worked rows: what cycles show, what stands on ports, and records that no file has.

ghost use Rattle.std.specs.Prelude.{◌≡◌, ℕ, ◌+◌, [], ◌∷◌, Some, None, true, false, codes, bytes_eq, ◌==◌, if◌then◌else◌};
ghost use Rattle.gl_values.specs.declared.kind.Kind.TheVariants as kinds;
ghost use Rattle.gl_schema.specs.Schemas.{text_word};
ghost use Rattle.gl_values.specs.Times.{tslices};
ghost use Rattle.gl_schema.specs.Beats.{ticks_of, times_of};
ghost use Rattle.gl_schema.specs.Ports as ports;
ghost use Rattle.gl_schema.specs.Seen as seen;
ghost use Rattle.gl_tuples.specs.Flat.{BeatList};
ghost use Rattle.gl_tuple_reader.specs.FileBeats.{AreBeatsOf};
ghost use Rattle.gl_tuples_tests.specs.Pins as two;
ghost use Rattle.gl_tuples_tests.specs.Settings as sets;
ghost use Rattle.gl_tuples_tests.specs.Settings.{row_record, set_record};
ghost use Rattle.gl_tuples_tests.specs.Ticks.{tick_record, ticking};
ghost use Rattle.gl_tuples_tests.specs.Ticks as ticks;

// What two worked cycles show is told in these lines: in one cycle the overflow, the result and the
// end in this order, the overflow once alone.
fn worked_lines()
    ensures quoted { seen.lines (kinds.Text 4 ∷ kinds.Unsigned 8
        ∷ []) (record {
          cycle = 1;
          row = Some (text_word 4 (codes "a,b") ∷ 200
              ∷ []);
          end = false;
          group = true;
          queue = false;
        } ∷ record {
          cycle = 2;
          row = Some
              (text_word 4 (codes "\"x") ∷ 0 ∷ []);
          end = true;
          group = true;
          queue = false;
        } ∷ [])
        ≡ codes "1,overflow\n1,\"a,b\",200\n2,\"\"\"x\",0\n2,end\n" }
    ensures together { seen.lines (kinds.Text 4 ∷ kinds.Unsigned 8
        ∷ []) (record { cycle = 9; row = None; end = false; group = false; queue = true }
        ∷ record {
          cycle = 10;
          row = Some (text_word 4 (codes "UB") ∷ 255
              ∷ []);
          end = true;
          group = true;
          queue = false;
        } ∷ [])
        ≡ codes "10,overflow\n10,UB,255\n10,end\n" }
{}

// Values on the output ports by name, and what is seen of them: file cycle n is simulation cycle
// n + 1, and a port that the module lacks counts as 0.
fn worked_seen()
    ensures { seen.seen (λ t name. if bytes_eq name (codes "out__valid") then Some
        (if t == 2 then 1 else 0) else if bytes_eq name (codes "out__v") then Some (t + 5) else if
        bytes_eq name (codes "out__eos") then Some (if t == 3 then 1 else 0) else None)
        (codes "out__v" ∷ []) 2
        ≡ record { cycle = 0; row = None; end = false; group = false; queue = false } ∷ record { cycle = 1; row = Some (7 ∷ []); end = false; group = false; queue = false } ∷ record { cycle = 2; row = None; end = true; group = false; queue = false } ∷ [] }
{}

// A tuple of the first of two streams in file cycle 0, a tick with the end in file cycle 2, and a
// parameter, on the ports of a module: reset first, and nothing in a cycle without a beat. The
// parameter has its value in every cycle, that of the reset too.
fn worked_pins()
    ensures reset { ports.pins two.schema two.beats 0
        ≡ ports.pin (codes "rst") 1 ∷ two.two_streams 0 0 (two.others 0 0) }
    ensures first { ports.pins two.schema two.beats 1
        ≡ ports.pin (codes "rst") 0 ∷ two.two_streams 1 7 (two.others 0 0) }
    ensures between { ports.pins two.schema two.beats 2
        ≡ ports.pin (codes "rst") 0 ∷ two.two_streams 0 0 (two.others 0 0) }
    ensures last { ports.pins two.schema two.beats 3
        ≡ ports.pin (codes "rst") 0 ∷ two.two_streams 0 0 (two.others 1 1) }
    ensures behind { ports.pins two.schema two.beats 4
        ≡ ports.pin (codes "rst") 0 ∷ two.two_streams 0 0 (two.others 0 0) }
{}

// The inputs that beats bring: a tick comes before the row of its cycle, a tick alone counts, and so
// does one with the end.
fn worked_times()
    ensures times { times_of 0 ticking ≡ 0 ∷ 1 ∷ 2 ∷ [] }
    ensures ticks { ticks_of ticking ≡ 3 }
{}

// Windows of time over those rows: size 2 by 1 over three ticks, size 1 by 2 with a gap, one window
// over nothing, and the empty ones that ticks alone make.
fn worked_windows()
    ensures close { tslices {A = ℕ} 2 1 (0 ∷ 1 ∷ 2 ∷ []) 3 (7 ∷ 8 ∷ 9 ∷ [])
        ≡ (7 ∷ 8 ∷ []) ∷ (8 ∷ 9 ∷ []) ∷ (9 ∷ []) ∷ [] ∷ [] }
    ensures apart { tslices {A = ℕ} 1 2 (0 ∷ 1 ∷ 2 ∷ []) 3 (7 ∷ 8 ∷ 9 ∷ [])
        ≡ (7 ∷ []) ∷ (9 ∷ []) ∷ [] }
    ensures nothing { tslices {A = ℕ} 2 2 [] 0 [] ≡ [] ∷ [] }
    ensures empty { tslices {A = ℕ} 2 2 [] 5 [] ≡ [] ∷ [] ∷ [] ∷ [] }
{}

// Files whose records break a rule have no beats: a value too wide for its column, a second row of
// a stream in a cycle, and a record behind the end.
fn refused_records()
    ensures too_wide { (beats : BeatList) → AreBeatsOf ticks.schema
        ((codes "0" ∷ codes "s" ∷ codes "999" ∷ []) ∷ []) beats → ⊥ }
    ensures twice { (beats : BeatList) → AreBeatsOf ticks.schema
        ((codes "0" ∷ codes "s" ∷ codes "1" ∷ []) ∷ (codes "0" ∷ codes "s" ∷ codes "2" ∷ [])
        ∷ []) beats → ⊥ }
    ensures behind { (beats : BeatList) → AreBeatsOf ticks.schema
        ((codes "0" ∷ codes "s" ∷ codes "1" ∷ []) ∷ (codes "0" ∷ codes "end" ∷ [])
        ∷ (codes "1" ∷ codes "s" ∷ codes "2" ∷ []) ∷ []) beats → ⊥ }
{}

// Nor do those with a second tick in a cycle, or with a field behind a tick, whether or not the
// cycle has one already.
fn refused_ticks()
    ensures twice { (beats : BeatList)
        → AreBeatsOf ticks.schema (tick_record [] ∷ tick_record [] ∷ []) beats → ⊥ }
    ensures behind { (beats : BeatList)
        → AreBeatsOf ticks.schema (tick_record (codes "1" ∷ []) ∷ []) beats → ⊥ }
    ensures twice_behind { (beats : BeatList)
        → AreBeatsOf ticks.schema (tick_record [] ∷ tick_record (codes "1" ∷ []) ∷ []) beats → ⊥ }
{}

// Files that set a parameter twice, that set none, or that set one behind a tuple have no beats.
fn refused_settings()
    ensures twice { (beats : BeatList) → AreBeatsOf sets.schema
        (set_record (codes "5") ∷ set_record (codes "5") ∷ row_record ∷ []) beats → ⊥ }
    ensures none { (beats : BeatList) → AreBeatsOf sets.schema (row_record ∷ []) beats → ⊥ }
    ensures late { (beats : BeatList) → AreBeatsOf sets.schema
        (set_record (codes "5") ∷ row_record ∷ set_record (codes "5") ∷ []) beats → ⊥ }
{}

/// Calls each law and each worked row once. They do nothing.
pub(crate) fn definitions() {
    gl_schema::one_reading();
    gl_schema::pins_go_by_the_profile();
    gl_schema::rows_have_times();
    gl_schema::right_at_each_cycle();
    gl_tuple_reader::one_reading();
    worked_lines();
    worked_seen();
    worked_pins();
    worked_times();
    worked_windows();
    refused_records();
    refused_ticks();
    refused_settings();
}
