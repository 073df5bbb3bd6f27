//! How texts are refused: the page `docs/use/faults.md`, held equal to it by `.ci/embedded`.

pub const FAULTS: &str = r##"# Faults

Every way in which a text is refused, with the shortest text that shows it. The mark `^` stands under the place that the answer names, a byte offset from 0; `>` begins an answer without one. What begins with `$` is typed.

The first fault in the order of work is told, and nothing behind it is looked at: the words; the program; the proof, and the limits on its conditions; the certificates, or the schedule and the run. [Statuses](statuses.md) say with which status each ends.

## Words and files

The words are none of the commands, a number is out of its range, or a word begins with `-` that is neither an option nor `-` alone and doesn't stand behind `--`. Look at the usage lines:

    $ step verify program | head -n 1
    words refused

A file isn't there, or can't be read. A name is taken as it is, from the folder in which the program runs: the empty word is the name of no file, and `-` that of the file `-`:

    $ step verify nowhere proof
    read fault: program

## Programs

Each text is the file `program` of `step verify program proof`.

A fault of the grammar is told at the first place where no program goes on so; only a text of the grammar is looked at for the rest, and refused at the first place where a rule of typing is broken, and there by the first of these kinds in the order of this section.

**`Syntax`**: no program goes on so, or the text breaks off. A `;` stands between statements, and not behind the last; a conditional ends with `fi`; a keyword is no name.

    P :: [ l0: skip; ]
                     ^ program refused: Syntax at 17

**`BadByte`**: no token begins so. And is `/\`, or is `\/`, not is `~`.

    P :: [ await a & b ]
                   ^ program refused: BadByte at 15

**`LongNumber`**: a numeral past 2^30, which is 1073741824. Use smaller ones, or a variable that an invariant bounds.

    P :: [ await 1073741825 > 0 ]
                 ^ program refused: LongNumber at 13

**`Unknown`**: a variable that isn't declared in front, at the program's head or its own process's. Declare it.

    P :: [ x := 1 ]
           ^ program refused: Unknown at 7

**`Twice`**: a name that was declared before. Variables, labels, end labels and processes share their names over the whole program, so take another one.

    local x: integer; P :: [ x: skip ]
                             ^ program refused: Twice at 25

**`WrongType`**: a number where a truth value is wanted, or the other way round; or a list of values with another length than its targets have, at its `(`. `=` compares numbers: truth values are equal by `(b -> c) /\ (c -> b)`.

    local x: integer where x; P :: [ skip ]
                           ^ program refused: WrongType at 23

**`NonLinear`**: a product of two sums that both have variables. There is no remedy but a program that adds.

    local x: integer where x * x = 1; P :: [ skip ]
                             ^ program refused: NonLinear at 25

**`TooLarge`**: a number that is computed from the text is past 2^30, at the operator. Write smaller ones.

    local x: integer where x = 2 * 1073741824; P :: [ skip ]
                                 ^ program refused: TooLarge at 29

**`InputAssigned`**: an `in` variable is a target. Copy it into a `local` one.

    in x: integer; P :: [ x := 1 ]
                          ^ program refused: InputAssigned at 22

**`SelectHead`**: a branch of a selection begins with a loop. Put a `skip` in front.

    P :: [ select [ while true do skip or skip ] ]
                    ^ program refused: SelectHead at 16

**`SameTarget`**: a variable stands twice on the left. One of its values is to go.

    local x: integer; P :: [ (x, x) := (0, 1) ]
                                 ^ program refused: SameTarget at 29

## Proofs

All proofs here are of this `program`:

    local x: integer; local b: boolean;
    P :: [ l0: loop forever do [ l1: x := x + 1; l2: request x; l3: noncritical ] ]

Each text is the file `proof` of `step verify program proof`. A text is read from left to right by units, which are formulas and sums as wholes, and all other tokens one by one. The first unit that breaks a rule is told. Within a formula faults of the grammar and the limit on nesting come first, at their first place, and then those of typing in text order.

**`Syntax`**: no proof goes on so, or the text breaks off. A step ends with `;`.

    invariant a: x >= 0
                       ^ proof refused: Syntax at 19

**`BadByte`**, **`LongNumber`**, **`NonLinear`**, **`TooLarge`**: as in programs.

    invariant a: b & x >= 0;
                   ^ proof refused: BadByte at 15

**`Unknown`**: a name that is no variable or, behind `at`, no label or end label. A label alone is no formula: it wants an `at`.

    invariant a: ~(l1 /\ b);
                   ^ proof refused: Unknown at 15

**`WrongType`**: a formula is a truth value; a bound, rank, base, delay or top is a number. In `x /\ y >= 0` x is taken for a truth value. A sign that isn't one of the language's ends a formula, so `x ≥ 0` is refused as a number where a truth value is wanted.

    invariant a: x;
                 ^ proof refused: WrongType at 13

**`Twice`**: a step has the name of an earlier one; in a drawing, a node has an earlier one's number or 0, or there is a second `terminal`. Take another name or number.

    invariant a: true; invariant a: b;
                                 ^ proof refused: Twice at 29

**`UnknownLemma`**: what is cited is no earlier step. Move the step that is cited to the front.

    invariant a: b using c;
                         ^ proof refused: UnknownLemma at 21

**`NotInvariant`**: what is cited is a waiting-for or a response. Only invariants can be cited.

    waiting w: b ==> b wait b by b, b; invariant a: b using w;
                                                            ^ proof refused: NotInvariant at 56

**`WrongCount`**: a list of levels has another length than the goal has formulas behind `==>`, at its `by`. Write one for each, the highest first.

    waiting w: b ==> b wait b by b;
                              ^ proof refused: WrongCount at 26

**`UnknownTransition`**: no transition has that name. It is the label of a statement with a transition, or a cooperation's with `.entry` or `.exit`; a block, a selection and an end have none.

    response r: b leads b within 1 by just b helper l9;
                                                    ^ proof refused: UnknownTransition at 48

**`UnfairHelper`**: a helper has to be just, and a `noncritical` may be stayed in for ever. Nothing that waits for it can be promised.

    response r: b leads b within 1 by just b helper l3;
                                                    ^ proof refused: UnfairHelper at 48

**`NotCompassionate`**: the group of `fair` or of a node has to be a `request`. For anything else take `just` or `chain`, or model the wait by a semaphore.

    response r: b leads b within 1 by fair l1 [ b ];
                                           ^ proof refused: NotCompassionate at 39

**`NoHelper`**: a node of a net has neither group nor helper; a node of a chain or rank diagram has no helper, at its number. Name the transition that leads on.

    response r: b leads b within 1 by net [ b base 0 delay 0 top 0 ];
                                            ^ proof refused: NoHelper at 40

**`UnknownNode`**: an edge names no node in front of it; or in a wait diagram a node's number is above the levels of the goal. Write nodes before their edges.

    response r: b leads b within 1 by diagram chain { terminal: b; edge 1 -> 0 on l1; };
                                                                        ^ proof refused: UnknownNode at 68

**`Upward`**: in a wait or chain diagram an edge leads to a higher number, or in any diagram one leads from the terminal. Number the nodes so that steps lead down; where they can't, draw a rank diagram.

    response r: b leads b within 1 by diagram chain { terminal: b; edge 0 -> 0 on l1; };
                                                                   ^ proof refused: Upward at 63

**`NoTerminal`**: a drawing has no terminal. Add `terminal: FORMULA;`, first.

    response r: b leads b within 1 by diagram chain { };
                                                      ^ proof refused: NoTerminal at 50

What isn't refused may be open: that isn't a fault of the text, and [statuses](statuses.md#how-to-read-an-open-condition) say how it is read.

## Certificates

The file `program`:

    local x: integer where x = 0; P :: [ l0: loop forever do l1: x := x + 1 ]

The file `proof`:

    invariant pos: x >= 0;

Each text is the file `certs` of `step check program proof certs`. The first condition without a valid block is named; nothing is said of the conditions behind it.

**`absent`**: the text ends before the block. `step prove` writes all blocks.

    version 2;
    > not proved: condition 1, pos start, absent

**`malformed`**: the text isn't of [the grammar](certificates.md#text).

    cert 1 absurd
    > not proved: condition 1, pos start, malformed

**`over a limit`**: a number, leaf or tree is past its limit. A multiplier is below 2^40.

    cert 1 farkas [1*1099511627776];
    > not proved: condition 1, pos start, over a limit

**`not valid`**: the block says nothing of this condition: certificates of another program or proof, or in another order.

    cert 1 absurd;
    > not proved: condition 1, pos start, not valid

**`trailing text`**: something follows the last condition's block. The file `proof`:

    invariant yes: true;

Its five conditions are absurd, and a sixth block is one too many.

    cert 1 absurd; cert 2 absurd; cert 3 absurd; cert 4 absurd; cert 5 absurd; cert 6 absurd;
                                                                               ^ trailing text at 75

## Schedules

The file `program`:

    local x: integer where x >= 1; P :: [ l0: loop forever do l1: x := 1073741824 * x ]

Each text is the file `schedule` of `step trace program proof schedule`. The first fault in text order is told.

**`Syntax`**: no schedule goes on so. Each value and each move ends with `;`, and `::` stands between values and moves.

    x = 1; :: l0, l1;
                ^ schedule refused: Syntax at 12

**`BadByte`**, **`LongNumber`**: as in programs.

    x = 1073741825; :: l0;
        ^ schedule refused: LongNumber at 4

**`Unknown`**: no variable has that name. Only variables are set, and labels are moves.

    y = 1; :: l0;
    ^ schedule refused: Unknown at 0

**`Twice`**: a variable is set a second time. Values change by moves alone.

    x = 1; x = 1; :: l0;
           ^ schedule refused: Twice at 7

**`WrongType`**: a truth value for a number, or the other way round.

    x = true; :: l0;
        ^ schedule refused: WrongType at 4

**`Unset`**: a variable has no value, at `::`. Each needs one, also where `where` leaves no choice.

    :: l0;
    ^ schedule refused: Unset at 0

**`UnknownTransition`**: no transition has that name. A statement without a label is named by its number in text order.

    x = 1; :: l9;
              ^ schedule refused: UnknownTransition at 10

**`illegal: start`**: a `where` formula is false of the values. Begin with others.

    x = 0; :: l0;
    > illegal: start

**`illegal: move`**: the move, counted from 1, isn't enabled where it comes: another process has to move first, or control is elsewhere.

    x = 1; :: l0; l1; l1;
    > illegal: move 3

**`value limit`**: from that position, counted from 0, a number of 2^126 or more would be computed. Play a shorter run.

    x = 1073741824; :: l0; l1; l0; l1; l0; l1; l0;
    > value limit: position 7

## Equations

Each text is the file `program` of `step invariants program`.

**`wide`**: a number on the way comes to 2^100. Smaller coefficients, or fewer of them, help.

    local a, b, c, d, e: integer where a = 0 /\ b = 0 /\ c = 0 /\ d = 0 /\ e = 0;
    P :: [ l0: loop forever do [
      l1: (a, b, c, d, e) := (1073741824*b + 3*c + 5*d + 7*e, 1073741823*c + 11*a, 1073741822*d + 13*b, 1073741821*e + 17*c, 1073741820*a + 19*d);
      l2: (a, b, c, d, e) := (1073741819*c + 23*b, 1073741818*d + 29*e, 1073741817*a + 31*d, 1073741816*b + 37*a, 1073741815*c + 41*b) ] ]
    > wide: invariants

## Warnings

What `milkhour verify`, `check` and `prove` warn of, whatever the status is.

**`NoStart`**: no state satisfies what stands behind `where`. So there is no run, and each goal holds of none. Look for formulas that contradict each other, as `x = 1 /\ x = 2`.

**`NoSteps`**: a proof without a step. It has no goal, so nothing is proved.

**`Empty`**: a claim that says nothing of the program. Every state satisfies an invariance, as `x < 5 \/ x >= 5` or `true`; or what a waiting-for or a response ends with holds wherever it begins. The search is asked for it without a lemma, so a claim that follows from others isn't meant.

**`Uncited`**: a step that is none of the goals that `--goals` names, and that none of them needs, through what is cited. Leave it out, cite it by `using`, or name it a goal.

## Limits

`limit: KIND NUMBER` is told where a limit is the first fault of a text, or of the conditions. What to do is mostly to split: a program into fewer statements by groups, a claim into several steps, a proof text into several.

| Text | What it bounds | Shown by |
|---|---|---|
| `Text 4194304` | bytes of a program, of a proof, of a schedule | [case](../../cases/limit-text-of-a-program-one-byte-too-long/generate) |
| `Certificates 268435456` | bytes of the certificates, also of those that `prove` would write | [case](../../cases/limit-certificates-one-byte-too-long/generate) |
| `Variables 64` | variables of a program, at the name of the 65th | [case](../../cases/limit-variables/generate) |
| `Processes 16` | processes | [case](../../cases/limit-processes/generate) |
| `Statements 400` | statements, those inside groups counted | [case](../../cases/limit-statements/generate) |
| `Nesting 32` | statements round a statement; open parentheses, `~`, unary `-` and `->` round a token of a formula | [case](../../cases/limit-nesting-of-parentheses/generate) |
| `Paths 64` | paths through a group | [case](../../cases/limit-paths-of-a-group/generate) |
| `Nodes 64` | nodes or items of a rule or drawing, levels behind `by`, formulas behind `==>` | [case](../../cases/limit-nodes-of-a-net/proof) |
| `Conditions 20000` | conditions of a script | [case](../../cases/limit-conditions/generate) |
| `Atoms 2048` | atoms, that is comparisons, boolean variables and locations in one condition; or in a composed test, truth value or guard of a group | [case](../../cases/limit-atoms-of-a-claim/generate) |
| `Weight 16777216` | atoms and variable entries of all conditions; or of the guards and values of all paths of all groups | [case](../../cases/limit-weight/generate) |
| `Moves 1000` | moves of a schedule | a schedule of 1,001 moves |

Truth constants weigh nothing: a text of nothing but these can take memory and time without passing a limit, and ends for want of memory at worst.
"##;
