// What doesn't depend on the assignment.

ghost use Rattle.std.specs.Prelude.{◌≡◌, ℕ, ℤ, false, true, [], Option};
ghost use Rattle.std.specs.List.{flat_map};
ghost use Rattle.mz_base.specs.declared.fault.Fault.{Fault};
ghost use Rattle.mz_value.specs.Contents.{Content};
ghost use Rattle.mz_core.specs.Program.{PlainProgram};
ghost use Rattle.mz_core.specs.Tree.{Tree};
ghost use Rattle.mz_meaning.specs.Runs.{State, Out, Stopped, then_do, give, start};
ghost use Rattle.mz_meaning.specs.Cells.{Cell, Par, Env, Blank, Bare, Given, value_of};
ghost use Rattle.mz_meaning.specs.Contexts.{Context, Untested, Positive, Other};
ghost use Rattle.mz_meaning.specs.Forms.{World};
ghost use Rattle.mz_meaning.specs.Evaluation.{eval};
ghost use Rattle.mz_meaning.specs.Walk.{Limits, Assignment, Walked, walk};
ghost use Rattle.mz_meaning.specs.Solutions.{SolvesWith, Solves};
ghost use Rattle.mz_meaning_laws.specs.Outlines.{outline, outline_state, outline_walked, blank_world, HasOutlines};
ghost use Rattle.mz_meaning_laws.specs.FreeLocals.{free_in, free_in_function, free_locals};
ghost use Rattle.mz_meaning_laws.specs.Ties.{is_local_kind, outline_answer, TakesNone};
ghost use Rattle.mz_meaning_laws.specs.Independence.{EnvsAreAlike, AreSameRuns, given_world, FitsUntested, FitsStrict, SolvesOver, RunsTo, SolvesPlainly, IsParTree, GivesPar};

/// Two evaluations, or two walks over a model, that differ in the values of decision variables and in the choices alone, give the same fault, or the same work, weight, domains of choices, bounds, shapes, domains and par values.
pub fn runs_are_alike()
    ensures expressions { (w : World) (top : Env) (f g : ℕ → Content) → EnvsAreAlike w.top top → (levels : ℕ) (c : Context) (e : Tree) (env other : Env) → EnvsAreAlike env other → AreSameRuns outline (eval (given_world w w.top f) levels c e env) (eval (given_world w top g) levels c e other) }
    ensures walks { (l : Limits) (p : PlainProgram) (a b : Assignment) (f g : ℕ → Content) → AreSameRuns outline_walked (walk Positive l (Given f) a p) (walk Positive l (Given g) b p) }
{}

/// What a run without values tells of each run with them. In the same context it is its outline, and the value that it gives of a par expression is the value in each run. One that tests no context, and one that allows no free local, part from a run with values only where the latter stops at a free local in a wrong place, or the former does.
pub fn bare_runs_fit()
    ensures expressions { (w : World) (top : Env) → HasOutlines w.top top → (levels : ℕ) (c : Context) (e : Tree) (env blank : Env) → HasOutlines env blank → (s : State) → eval (blank_world false w top) levels c e blank (outline_state false s) ≡ outline_answer false outline (eval w levels c e env s) }
    ensures walks { (l : Limits) (p : PlainProgram) (c : Context) (a b : Assignment) (f : ℕ → Content) → walk c l Bare b p start ≡ outline_answer false outline_walked (walk c l (Given f) a p start) }
    ensures values { (w : World) (top : Env) → HasOutlines w.top top → (levels : ℕ) (c : Context) (e : Tree) → IsParTree e → (env blank : Env) → HasOutlines env blank → (s : State) (v : Option Content) (t : State) → then_do (eval (blank_world false w top) levels c e blank (outline_state false s)) (λ x. give (value_of x)) ≡ Out v t → GivesPar (eval w levels c e env s) v t.work }
    ensures untested { (w : World) (top : Env) → HasOutlines w.top top → (levels : ℕ) (c : Context) (e : Tree) (env blank : Env) → HasOutlines env blank → (s : State) → FitsUntested outline (eval (blank_world false w top) levels Untested e blank (outline_state false s)) (eval w levels c e env s) }
    ensures strict { (w : World) (top : Env) → HasOutlines w.top top → (levels : ℕ) (c : Context) (e : Tree) (env blank : Env) → HasOutlines env blank → (s : State) → FitsStrict outline s (eval (blank_world false w top) levels Other e blank (outline_state false s)) (eval w levels c e env s) }
    ensures untested_walks { (l : Limits) (p : PlainProgram) (a b : Assignment) (f : ℕ → Content) → FitsUntested outline_walked (walk Untested l Bare b p start) (walk Positive l (Given f) a p start) }
    ensures strict_walks { (l : Limits) (p : PlainProgram) (a b : Assignment) (f : ℕ → Content) → FitsStrict outline_walked start (walk Other l Bare b p start) (walk Positive l (Given f) a p start) }
    ensures par_values { (c : Cell) (v : Option Content) → outline c ≡ Par v → c ≡ Par v }
{}

/// The domains, par values and choices' domains of all solutions are those of one walk without values, and so is their work. Nothing solves a model of which the walk without values stops, nor one of which the walk that allows no free local stops at another fault.
pub fn solutions_are_told_by_one_walk()
    ensures over { (l : Limits) (p : PlainProgram) (a b : Assignment) (z : Option ℤ) (shown : Walked) (t : State) → walk Positive l (Blank true) b p start ≡ Out shown t → SolvesWith l p a z → SolvesOver l p shown t a z }
    ensures back { (l : Limits) (p : PlainProgram) (a : Assignment) (z : Option ℤ) (shown : Walked) (t : State) → SolvesOver l p shown t a z → SolvesWith l p a z }
    ensures told { (l : Limits) (p : PlainProgram) (a b : Assignment) (z : Option ℤ) (shown : Walked) (t : State) → walk Positive l Bare b p start ≡ Out shown t → (s : SolvesWith l p a z) → (outline_walked s.out ≡ shown) × (s.end.work ≡ t.work) }
    ensures stopped { (l : Limits) (p : PlainProgram) (a b : Assignment) (g : Fault) → walk Positive l Bare b p start ≡ Stopped g → Solves l p a → ⊥ }
    ensures none { (l : Limits) (p : PlainProgram) (a b : Assignment) (h : Fault) → is_local_kind h.kind ≡ false → walk Other l Bare b p start ≡ Stopped h → Solves l p a → ⊥ }
{}

/// In a model without free locals the run without values is the outline of each run with them, in every context, and no choice is taken. So its faults leave no solution, and solutions are told over its domains.
pub fn models_without_free_locals_are_told()
    ensures expressions { (w : World) (top : Env) → HasOutlines w.top top → flat_map free_in_function w.functions ≡ [] → (levels : ℕ) (c d : Context) (e : Tree) → free_in e ≡ [] → (env blank : Env) → HasOutlines env blank → (s : State) → eval (blank_world false w top) levels d e blank (outline_state false s) ≡ outline_answer false outline (eval w levels c e env s) }
    ensures choices { (w : World) (top : Env) → HasOutlines w.top top → flat_map free_in_function w.functions ≡ [] → (levels : ℕ) (c : Context) (e : Tree) → free_in e ≡ [] → (env blank : Env) → HasOutlines env blank → (s : State) → TakesNone s (eval w levels c e env s) }
    ensures walks { (l : Limits) (p : PlainProgram) → free_locals p ≡ [] → (c d : Context) (a b : Assignment) (f : ℕ → Content) → walk d l Bare b p start ≡ outline_answer false outline_walked (walk c l (Given f) a p start) }
    ensures runs { (l : Limits) (p : PlainProgram) → free_locals p ≡ [] → (b : Assignment) (shown : Walked) (t : State) → walk Untested l Bare b p start ≡ Out shown t → (f : ℕ → Content) (a : Assignment) → RunsTo l p shown t.work f a }
    ensures solves { (l : Limits) (p : PlainProgram) → free_locals p ≡ [] → (a b : Assignment) (z : Option ℤ) (shown : Walked) (t : State) → walk Untested l Bare b p start ≡ Out shown t → (s : SolvesWith l p a z) → SolvesPlainly l p shown s.choices a z }
    ensures back { (l : Limits) (p : PlainProgram) → free_locals p ≡ [] → (a b : Assignment) (z : Option ℤ) (shown : Walked) (t : State) → walk Untested l Bare b p start ≡ Out shown t → (f : ℕ → Content) → SolvesPlainly l p shown f a z → SolvesWith l p a z }
    ensures none { (l : Limits) (p : PlainProgram) → free_locals p ≡ [] → (a b : Assignment) (g : Fault) → walk Untested l Bare b p start ≡ Stopped g → Solves l p a → ⊥ }
{}
