//! Statuses and reports: the page `docs/use/statuses.md`, held equal to it by `.ci/embedded`.

pub const STATUSES: &str = r##"# Statuses and reports

    step check PROGRAM PROOF CERTS [--workers N]     checks the given certificates
    step verify PROGRAM PROOF [--workers N]          searches for a certificate of each condition
    step prove PROGRAM PROOF                         searches, and writes the certificates in place of the report
    step workload N                                  makes a program and proof of N processes, 1 to 4, and verifies them
    step trace PROGRAM PROOF SCHEDULE                plays one run, and judges each goal on it
    step invariants PROGRAM                          looks for linear equations, and writes those that verify proves as a proof text

A name is a word that doesn't begin with `-`, or any word behind `--`; the empty word and a lone `-` are names too, taken as they stand like any other. Workers are 1 to 64, by default 1; the option may also stand elsewhere among the words, and be written `--workers=N`. It changes no answer; every command takes it, and it is of use to `check` and `verify` alone.

`step` ends with one of these statuses, and writes the text beside it on standard output, each line ended by a line feed.

| Status | Text | It comes |
|---|---|---|
| 0 proved | the [report](#what-is-proved), or a [proof text](#what-is-found) | where every condition has a valid certificate and only blanks follow the last (`check`), or is decided valid (the others); with `invariants` where no number is too large, with `trace` where the schedule gives a run, whatever is judged of the goals on it |
| 1 not proved | `not proved: condition N, NAME, REASON`, and of a search [what it ended with](#how-to-read-an-open-condition) | where condition N is the first that isn't discharged |
| 2 words | `words refused`, then a usage line for each command | where the words are none of these commands |
| 3 program refused | `program refused: KIND at PLACE` | where the program's text spells no well-typed program, and its first fault is no limit |
| 4 proof refused | `proof refused: KIND at PLACE` | where the proof's text spells no script over the program, and its first fault is no limit |
| 5 trailing text | `trailing text at PLACE` | where all conditions have valid blocks and a byte that isn't blank follows (`check`) |
| 6 read fault | `read fault: program`, `proof`, `certificates` or `schedule` | only where reading that file failed; `workload` reads none |
| 7 write fault | none of its own | exactly where writing failed; what was written is a proper beginning of the text |
| 8 limit | `limit: KIND NUMBER` | where a [limit](faults.md#limits) is the first fault of a file, of a text, or of the conditions; or the text that `prove` would write is longer than `check` takes |
| 9 memory | none | where memory was refused, or the thread on whose stack the program runs; nothing was written. [More](#status-9) |
| 10 schedule refused | `schedule refused: KIND at PLACE` | where the schedule's text spells no schedule of the program, and its first fault is no limit |
| 11 illegal | `illegal: start` or `illegal: move K` | where a `where` formula is false of the schedule's values; where move K is the first that isn't enabled |
| 12 value limit | `value limit: position K` | where from position K on a number of 2^126 or more would be computed |
| 13 wide | `wide: invariants` | where a number of size 2^100 or more is met while equations are looked for (`invariants`) |

`trace` ends with status 0 where the schedule is a run of the program, whatever holds on it, and prints [what it shows](runs.md#what-is-printed). [Faults](faults.md) shows a text for each refusal. Places are byte offsets from 0 and positions of a run count from 0; every other number counts from 1. What `workload N` prints begins with the line `workload N`, whatever the status, once its words are taken.

## What is proved

`check` and `verify` print the numbers of goals and conditions, and each goal in its order. This is the report of [examples/overtaking](../../examples/overtaking/report), and behind it the line of a response:

    proved: goals 3, conditions 116
    invariant flags
    waiting once
    waiting drawn

    response ends within 3*a + 3*b + 1

A bound is printed as a sum of variables in their order, the constant last, unless it is 0 and there are variables. A proof without steps has `goals 0, conditions 0`. `prove` prints the [certificates](certificates.md) and no report, so that `step prove program proof > certs` makes a file for `step check`. What is told of a proof that fails goes to standard output too, so it stands in that file: look at the status. `workload` prints two lines, `workload 1` and `proved: goals 2, conditions 18, nodes 128`; nodes are those of all certificates found, which make the workload's size known and comparable.

## What is found

`invariants` prints a line for each linear equation between variables and locations that every step keeps and that holds at the start, as [proofs](proofs.md#found-invariants) say. Of two processes that take turns by a semaphore y ([examples/semaphore](../../examples/semaphore/program)) it finds that y is 1 less the number of those between `request` and `release`:

    invariant eq1: (~at l3 /\ ~at l4 /\ ~at m3 /\ ~at m4 /\ y - 1 = 0) \/ (~at l3 /\ ~at l4 /\ (at m3 \/ at m4) /\ y = 0) \/ ((at l3 \/ at l4) /\ ~at m3 /\ ~at m4 /\ y = 0) \/ ((at l3 \/ at l4) /\ (at m3 \/ at m4) /\ y + 1 = 0);

The whole output is a proof text: `step invariants program > found` makes a file with which `step verify program found` ends with status 0, as long as the file is within the limit `Text`; a program with long labels can give more than its 4,194,304 bytes. An equation N that isn't printed leaves a comment, `% left out: eqN`; which of the [causes](proofs.md#found-invariants) it was isn't said. Where nothing is found the text is empty, which is a proof without steps.

## Why a condition isn't proved

The first condition that isn't discharged is named, by its number and name, whatever the number of workers. A **name** is the step's, what the condition is for ([proofs](proofs.md)), the node or level if there is one, and the transition and mode: `pos keep l1 1`, `enter move 3 m2 1`, `enter cover`. A transition is `idle`, the label of its statement, or `#n` for an unlabelled statement with number n in text order, blocks and selections counted and what stands inside a group not; those of a cooperation add `.entry` and `.exit`. The reason is one of these:

| Reason | | |
|---|---|---|
| `absent` | `check` | the text ends before the block |
| `malformed` | `check` | the block breaks the grammar of certificates |
| `over a limit` | `check` | the block has a number, leaf or tree past its limit |
| `not valid` | `check` | the block shows nothing of this condition |
| `open` | `verify`, `prove`, `workload` | the search ended without a certificate; mostly there is a state in which the condition is false |
| `wide` | the same | the search gave up |

## How to read an open condition

The broken twin of `examples/semaphore` has a response without compassion. `milkhour verify program proof` shows the condition that is open as a step between two states:

    open: `m2` leads from item 3 of `enter` where the rule doesn't allow it                       1 of 1
      --> proof:10:3
         |
      10 |   at l2 /\ y >= 1 helper l2 ] using mutex;
         |   ^^^^^^^^^^^^^^^ the step begins in a state of this item
      ::: program:3:51
         |
       3 | || P2 :: [ m0: loop forever do [ m1: noncritical; m2: request y; m3: critical; m4: release y ] ]
         |                                                   ^^^^^^^^^^^^^ by this statement
         |
                  before  behind
           P1     l2      l2
           P2     m2      m3   <-
           y      1       0   <-
         = step enter: statement `m2: request y` of P2 must lead from item 3 to the goal, to a lower item, or stay

**The table** has a row for each process, with the label at which it stands, and one for each variable. `before` is the state in which the step begins, where all that is given holds; `behind` is where it leads, and `<-` stands where the step changes something. `any` is what the condition doesn't speak of: it is false whatever stands there. The marks in the texts say what the state is to them: `false behind the step` is a claim that the step breaks. A condition without a step, as that the claim holds at the start, has one column, and `false in this state` stands at what fails. Lines with `=` say what was wanted, and end with the number and the name of the condition.

`step verify program proof` says the same in fewer words:

    not proved: condition 58, enter move 3 m2 1, open
    path: case 1 3, case 2 3
    control 1: l2
    control 2: m2
    value y: 1

**The name** says which demand isn't met: of the step `enter`, that from a state of node 3 the transition m2, in its mode 1, leads to a node that is allowed.

**The state** refutes it: what is given holds there, and what is shown doesn't. For `keep` and `move` it is the state *before* the step. A line `control C` tells where component C stands, each active process and child of a cooperation in text order: a label; `@n` for the n-th location of the whole program where it has none, such as the end behind a `loop forever`; or `inside l1`, `inside #n` for a component that is inside a cooperation. A line `value NAME` tells a variable's value. Here P1 waits at l2 while the semaphore is up, which is node 3, and P2 takes it by m2: then P1 waits at none of the nodes that node 3 may lead to.

Nobody says that the state can be reached. Ask that first.

- **It can.** Then the claim is false of the program, or the rule doesn't fit: a bound too small (`examples/barrier/broken`: `met cover` at the start of the wait), a rank that doesn't fall (`examples/euclid/broken`), a step that isn't atomic (`examples/peterson/broken`), a transition that fairness doesn't favour, as above. `examples/philosophers/broken` shows a deadlock: each at its second fork, all forks taken.
- **It can't.** Then what is given is too weak: prove an invariant that excludes the state and cite it by `using`, or add it behind `by`. A location written `@n` that the proof didn't think of, or a variable with a value that it never has, are the usual signs.

Variables and components that the condition doesn't speak of have arbitrary values: 0, false, the first alternative. So a value that looks impossible may be one that nobody asked for.

**The path** says how the search came there, step by step: `case C A`, component C at its A-th alternative; `bool V B`, variable V true (1) or false (2); `split K I`, the I-th part of the K-th disjunction. `path: root` stands where no step was needed. The alternatives of a component are its locations in text order and, directly behind the location of a cooperation, being inside it. The path is also where a certificate made by hand would have its hole.

**`state: none`** stands in the state's place where the lines at the end of the path have no contradiction over fractions, but no point of whole numbers was found for them. The proof text `invariant a: ~(3*x - 5*y >= 1 /\ 3*x - 5*y <= 1 /\ x >= 1 /\ x <= 1) by true;` is such: y would be 2/5. The condition may be valid, by a certificate with a `cut`; of this one `cut [1:2; -1] { farkas [1*1, 4*3, 5*5] farkas [2*1, 3*3, 5*5] }` is one. Or say the inequality with its constants rounded.

**`wide`** has a line `stage:` behind the path: `tree` where the tree has more than 100,000 nodes or 400 levels, or the variable whose elimination made more than 4,096 rows or too large numbers. (`rows`, for more than 4,096 lines at once, can't come, as a condition has at most 2,048 atoms.) Split the claim into several steps, or cite less.

## Status 9

Status 9 is the answer to no text: no plan of a run ends with it, which is proved ([step_run](../../crates/step_run/README.md)). That it comes only where memory, or the thread, was refused is tried by refusing them in turn ([how](../inside/cases.md)), and proved nowhere, since no contract knows whether memory was there. One text is refused as if it were: that of `invariants` where it would come to 2^32 bytes.

## Order

The causes come in this order: the words; the program's file, then its text; the proof's file, then its text, then the limits on the conditions; for `check` the certificates' file, which is read whole whatever its blocks show; then the conditions; for `trace`, which makes none, the schedule's file, then its text, then the run. A read fault gives status 6 even where earlier bytes of the same file show another fault. The text is made whole before its first byte is written.
"##;
