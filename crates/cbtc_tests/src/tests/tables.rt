//! Worked documents and what the program writes for each, as tables of text.
//!
//! A row is a line `= NAME`, the text lines of the document, a line `- STATUS` of a run, `* STATUS` of a check or
//! `$ STATUS WORDS` of a call with these words, and the lines that are written. In front of the line of the call may stand a line
//! `! READ WRITE ROOM OPEN`: the numbers, from 1, of the source's call and of the sink's that fail, or 0; the bytes that the
//! sink takes, else 1000; and 1 where the document's last text line has no LF. A line that begins with `/` is a remark. On both
//! sides stand for other lines:
//!
//! - `+ PART`: the text lines of that part.
//! - `@ COUNT TEXT`: the text so many times, with 1, 2 and so on in place of a `%`.
//! - `~ SIZE TEXT`: the text and its last byte again, up to so many bytes.
//!
//! One literal for all rows costs the prover some six seconds; each row in the form of a struct would cost half a second.

/// The parts, each a line `: NAME` and its text lines:
///
/// - four segments: in one zone, a portal at each end; text lines 1 to 10.
/// - short segments: 26 of 1000 mm in one zone, a portal at each end; text lines 1 to 54.
/// - silent after 10: a further item, text line 11, so that all that follows stands one text line later.
/// - asks for entry: train 7 does; text lines 11 to 13.
/// - comes on: it is granted the entry, takes it and comes on; text lines 14 to 17.
/// - goes on: it asks for two segments more; text lines 18 and 19.
/// - moves: it takes what was granted and moves on to 200000; text lines 20 and 21. 4 messages went to the zone by then.
/// - follows: train 8 comes on at the same portal; six events.
/// - slow train: train 7 asks for entry, at 333 mm/s; text lines 11 to 13.
/// - trains: four of them, the last one longer than a portal's segment; text lines 11 to 15.
/// - told of one train: what a run of four segments, asks for entry, comes on and goes on gives.
/// - usage: what words give that are no command.
/// - both on: trains 7 and 8 come on, one from each portal; text lines 16 to 25. 4 messages went to the zone by then.
const PARTS: &[(&str, &str)] = &[
    (
        "four segments",
        "zone 1
segment 1 1 100000
segment 2 1 300000
segment 3 1 300000
segment 4 1 100000
portal 1-
joint 1+ 2-
joint 2+ 3-
joint 3+ 4-
portal 4+",
    ),
    (
        "short segments",
        "zone 1
segment 1 1 1000
segment 2 1 1000
segment 3 1 1000
segment 4 1 1000
segment 5 1 1000
segment 6 1 1000
segment 7 1 1000
segment 8 1 1000
segment 9 1 1000
segment 10 1 1000
segment 11 1 1000
segment 12 1 1000
segment 13 1 1000
segment 14 1 1000
segment 15 1 1000
segment 16 1 1000
segment 17 1 1000
segment 18 1 1000
segment 19 1 1000
segment 20 1 1000
segment 21 1 1000
segment 22 1 1000
segment 23 1 1000
segment 24 1 1000
segment 25 1 1000
segment 26 1 1000
portal 1-
joint 1+ 2-
joint 2+ 3-
joint 3+ 4-
joint 4+ 5-
joint 5+ 6-
joint 6+ 7-
joint 7+ 8-
joint 8+ 9-
joint 9+ 10-
joint 10+ 11-
joint 11+ 12-
joint 12+ 13-
joint 13+ 14-
joint 14+ 15-
joint 15+ 16-
joint 16+ 17-
joint 17+ 18-
joint 18+ 19-
joint 19+ 20-
joint 20+ 21-
joint 21+ 22-
joint 22+ 23-
joint 23+ 24-
joint 24+ 25-
joint 25+ 26-
portal 26+",
    ),
    ("silent after 10", "silent 10"),
    (
        "asks for entry",
        "script
train 7 60000 2000 20000 eq
entry 7 1+",
    ),
    (
        "comes on",
        "take 1 0 1
take 0 1 1
enter 7
take 1 0 2",
    ),
    (
        "goes on",
        "ask 7 1 2+ 3+ 300000
take 1 0 3",
    ),
    (
        "moves",
        "take 0 1 2
step 7000 7 140000",
    ),
    (
        "follows",
        "train 8 60000 2000 20000 eq
entry 8 1+
deliver 1
deliver 0
enter 8
deliver 1",
    ),
    (
        "slow train",
        "script
train 7 60000 2000 333 eq
entry 7 1+",
    ),
    (
        "trains",
        "script
train 7 60000 2000 20000 eq
train 8 60000 2000 20000 eq
train 9 60000 2000 20000 eq
train 10 100001 2000 20000 eq",
    ),
    (
        "told of one train",
        "entry 1 7 1
answer 7 1 taken
grant 1 7 2 3+ 300000 1
done 8",
    ),
    ("usage", "usage: cbtc run, check, race, race trace or big N"),
    (
        "both on",
        "entry 7 1+
take 1 0 1
entry 8 4-
take 1 0 2
take 0 1 1
take 0 1 2
enter 7
enter 8
take 1 0 3
take 1 0 4",
    ),
];

/// The tables, one behind the other.
const TABLES: &str = "/ What a run and other words give.
= one train
+ four segments
+ asks for entry
+ comes on
+ goes on
- 0
entry 1 7 1
answer 7 1 taken
grant 1 7 2 3+ 300000 1
done 8
= oncoming trains stop at the held cell
+ four segments
script
train 7 60000 2000 20000 eq
train 8 60000 2000 20000 eq
entry 7 1+
take 1 0 1
entry 8 4-
take 1 0 2
take 0 1 1
take 0 1 2
enter 7
enter 8
take 1 0 3
take 1 0 4
ask 7 1 2+ 3+ 100000
ask 8 1 3- 2- 300000
take 1 0 5
take 1 0 6
ask 8 1 3- 2- 300000
take 1 0 7
- 0
entry 1 7 1
entry 1 8 1
answer 7 1 taken
answer 8 1 taken
grant 1 7 2 3+ 100000 1
grant 1 8 2 3- 200000 3
deny 1 8 3
done 18
= detect is not built
+ four segments
+ asks for entry
+ comes on
+ goes on
detect 1 free
- 10
entry 1 7 1
answer 7 1 taken
grant 1 7 2 3+ 300000 1
unbuilt 20
= a message never sent
+ four segments
+ asks for entry
+ comes on
+ goes on
take 1 0 4
- 5
entry 1 7 1
answer 7 1 taken
grant 1 7 2 3+ 300000 1
premise 20 P6
/ Each rule of the line.
= rule 1 at the word
script
- 3
line 1 rule 1
= rule 1 at the end
# no items
- 3
line 2 rule 1
= rule 2
zone 1
segment 1 1 100
segment 1 1 100
- 3
line 3 rule 2
= rule 3
zone 1
segment 1 2 100
- 3
line 2 rule 3
= rule 3 before rule 4
zone 1
segment 0 2 100
- 3
line 2 rule 3
= rule 4 of a zone
zone 17
- 3
line 1 rule 4
= rule 4 of a segment
zone 1
segment 1 1 0
- 3
line 2 rule 4
= rule 6
zone 1
segment 1 1 100
portal 1-
buffer 1-
- 3
line 4 rule 6
= rule 7
zone 1
segment 1 1 100
portal 1-
script
- 3
line 4 rule 7
= rule 7 at the end
zone 1
segment 1 1 100
portal 1-
- 3
line 4 rule 7
= rule 8
zone 1
segment 1 1 100
joint 1- 1+
- 3
line 3 rule 8
= rule 12
zone 1
segment 1 1 100
portal 1-
buffer 1+
script
- 3
line 5 rule 12
= a second zone
zone 1
zone 2
- 10
unbuilt 2
= the same zone again
zone 1
zone 1
- 10
unbuilt 2
= rule 2 of silent
zone 1
silent 5000
silent 10
- 3
line 3 rule 2
= rule 2 of silent before rule 4
zone 1
silent 5000
silent 0
- 3
line 3 rule 2
= rule 4 of silent
zone 1
silent 0
- 3
line 2 rule 4
= rule 4 of silent, too long
zone 1
silent 3600001
- 3
line 2 rule 4
= silent for an hour
silent 3600000
- 3
line 2 rule 1
= a brake without ticks
zone 1
brake 0 0 100
- 0
done 0
= a brake at its bounds
zone 1
brake 1000 100000 100000
- 0
done 0
= rule 2 of brake before rule 4
zone 1
brake 50 0 1000
brake 1001 0 150
- 3
line 3 rule 2
= rule 4 of brake, its ticks
zone 1
brake 1001 0 1000
- 3
line 2 rule 4
= rule 4 of brake before rule 18
zone 1
brake 50 100001 150
- 3
line 2 rule 4
= rule 4 of brake, its rate
zone 1
brake 50 0 100001
- 3
line 2 rule 4
= rule 4 of brake, its ticks past 2^16
zone 1
brake 65586 0 1000
- 3
line 2 rule 4
= rule 4 of brake, its runaway past 2^32
zone 1
brake 50 4294967296 1000
- 3
line 2 rule 4
= rule 4 of brake, its rate past 2^32
zone 1
brake 50 0 4294968296
- 3
line 2 rule 4
= rule 18 of the rate
+ four segments
brake 50 0 150
- 3
line 11 rule 18
= rule 18 of no rate
zone 1
brake 50 0 0
- 3
line 2 rule 18
= rule 18 of the runaway
zone 1
brake 50 150 1000
- 3
line 2 rule 18
= rule 18 of the longest stop
zone 1
brake 880 67600 100
- 3
line 2 rule 18
= a long stop that is short enough
zone 1
brake 933 92800 200
- 0
done 0
= switch is not built
+ four segments
switch 1 1+ 2- 3- 10
- 10
unbuilt 11
= section is not built
+ four segments
section 1 1:0:5 2:0:5 3:0:5
- 10
unbuilt 11
= block is not built
+ four segments
block 1 - 2 3
- 10
unbuilt 11
= the grammar before what is not built
zone 1
switch 1 1+ 2- 3-
- 3
line 2 column 18
= not built before the rules
zone 1
switch 0 9+ 9- 9- 0
- 10
unbuilt 2
/ Text lines that are no item, each refused at its column; the word of a race is none.
= refused at column 1
Zone 1
- 3
line 1 column 1
= refused at column 1
 zone 1
- 3
line 1 column 1
= refused at column 1
\tzone 1
- 3
line 1 column 1
= refused at column 1
enter 7
- 3
line 1 column 1
= refused at column 2
scrip
- 3
line 1 column 2
= refused at column 2
script x
- 3
line 1 column 2
= refused at column 2
plan 1
- 3
line 1 column 2
= refused at column 5
zone
- 3
line 1 column 5
= refused at column 5
zone\t1
- 3
line 1 column 5
= refused at column 6
zone\x20
- 3
line 1 column 6
= refused at column 6
zone -1
- 3
line 1 column 6
= refused at column 7
zone 01
- 3
line 1 column 7
= refused at column 7
zone 1\x20
- 3
line 1 column 7
= refused at column 7
zone 1\r
- 3
line 1 column 7
= refused at column 19
zone 12345678901234
- 3
line 1 column 19
= refused at column 12
segment 1 1
- 3
line 1 column 12
= refused at column 8
joint 1 + 2-
- 3
line 1 column 8
= refused at column 11
joint 1+ 1
- 3
line 1 column 11
= refused at column 18
switch 1 2+ 3- 4-
- 3
line 1 column 18
= refused at column 10
section 1
- 3
line 1 column 10
= refused at column 14
section 1 1:0
- 3
line 1 column 14
= refused at column 28
section 1 1:0:5 1:5:6 1:6:7 1:7:8
- 3
line 1 column 28
= refused at column 9
block 1 x
- 3
line 1 column 9
= refused at column 10
block 1 +
- 3
line 1 column 10
= refused at column 11
brake 50 0
- 3
line 1 column 11
= refused at column 9
portal 1
- 3
line 1 column 9
= refused at column 15
silent 3600000+
- 3
line 1 column 15
/ Text lines and their forms.
= comments and empty lines
# a line

+ four segments
#

script
- 0
done 0
= comments and empty lines count
# a line

zone 17
- 3
line 3 rule 4
= an empty script
+ four segments
script
- 0
done 0
= no script
+ four segments
- 0
done 0
= a leading zero
zone 01
- 3
line 1 column 7
= 14 digits
zone 10000000000000
- 3
line 1 column 19
= 13 digits
zone 1000000000000
- 3
line 1 rule 4
= a number out of its range
+ four segments
script
train 65536 60000 2000 20000 eq
- 4
script 12 column 7
= an error as long as the train
+ four segments
script
train 7 2000 2000 20000 eq
- 4
script 12 column 14
= a space too many
zone  1
- 3
line 1 column 6
= an item in the script
+ four segments
script
zone 1
- 4
script 12 column 1
= an event among the items
+ four segments
enter 7
- 3
line 11 column 1
= an event and an item begin alike
+ four segments
step 1000
- 3
line 11 column 2
= the column counts within its text line
zone 1

segment 1 1
script
- 3
line 3 column 12
= the grammar before the rules
zone 1
zone 17\x20
- 3
line 2 column 8
= a comment of one byte
#
- 3
line 2 rule 1
= no comment
 #
- 3
line 1 column 1
= a plan in a run
+ four segments
plan
- 4
script 11 column 1
= a plan before the line is finished
plan
- 4
script 1 column 1
= a plan in the script
+ four segments
script
plan
- 4
script 12 column 1
= the word again
+ four segments
script
script
- 4
script 12 column 3
= a train not declared
+ four segments
script
enter 7
- 4
script 12 column 7
= an entry at no portal
+ four segments
script
train 7 60000 2000 20000 eq
entry 7 2+
- 4
script 13 column 9
/ What is taken, asked and refused.
= an ask taken twice
+ four segments
+ asks for entry
+ comes on
+ goes on
take 1 0 3
- 0
entry 1 7 1
answer 7 1 taken
grant 1 7 2 3+ 300000 1
deny 1 7 1
done 9
= an entry taken twice
+ four segments
+ asks for entry
take 1 0 1
take 1 0 1
- 0
entry 1 7 1
noentry 1 7 known
done 4
= an authority taken twice
+ four segments
+ asks for entry
+ comes on
take 0 1 1
- 0
entry 1 7 1
answer 7 1 taken
answer 7 1 taken
done 7
= an ask before its limit
+ four segments
+ asks for entry
+ comes on
ask 7 1 1+ 50000
take 1 0 3
- 0
entry 1 7 1
answer 7 1 taken
deny 1 7 1
done 8
= an ask past its last step
+ four segments
+ asks for entry
+ comes on
ask 7 1 2+ 3+ 4+ 200000
take 1 0 3
- 0
entry 1 7 1
answer 7 1 taken
grant 1 7 2 4+ 100000 2
done 8
= an ask that is not joined
+ four segments
+ asks for entry
+ comes on
ask 7 1 3+ 100000
take 1 0 3
- 0
entry 1 7 1
answer 7 1 taken
deny 1 7 10
done 8
= an ask before the answer
+ four segments
+ asks for entry
take 1 0 1
ask 7 1 2+ 100000
take 1 0 2
- 0
entry 1 7 1
deny 1 7 10
done 5
= a take before the zone sent
+ four segments
+ asks for entry
take 0 1 1
- 5
premise 14 P6
= a take from itself
+ four segments
+ asks for entry
take 1 1 1
- 4
script 14 column 8
= enter before the authority
+ four segments
+ asks for entry
take 1 0 1
enter 7
- 5
entry 1 7 1
premise 15 P5
= a second enter
+ four segments
+ asks for entry
+ comes on
enter 7
- 5
entry 1 7 1
answer 7 1 taken
premise 18 P5
= a second entry there
+ four segments
+ asks for entry
take 1 0 1
entry 7 1+
take 1 0 2
- 0
entry 1 7 1
noentry 1 7 known
done 5
= a second entry elsewhere
+ four segments
+ asks for entry
entry 7 4-
- 5
premise 14 P5
= a train too long
+ four segments
script
train 7 100001 2000 20000 eq
entry 7 1+
take 1 0 1
- 0
noentry 1 7 toolong
done 3
/ Several trains: what is held for one stops another.
= an entry over a held portal segment
+ four segments
+ trains
entry 7 1+
take 1 0 1
entry 8 1+
take 1 0 2
- 0
entry 1 7 1
noentry 1 8 held 7
done 8
= a third train finds the first
+ four segments
+ trains
+ both on
entry 9 1+
take 1 0 5
- 0
entry 1 7 1
entry 1 8 1
answer 7 1 taken
answer 8 1 taken
noentry 1 9 held 7
done 16
= a third train finds the second
+ four segments
+ trains
+ both on
entry 9 4-
take 1 0 5
- 0
entry 1 7 1
entry 1 8 1
answer 7 1 taken
answer 8 1 taken
noentry 1 9 held 8
done 16
= a portal segment held by one mm from behind
+ four segments
+ trains
entry 8 4-
take 1 0 1
take 0 1 1
enter 8
take 1 0 2
ask 8 1 3- 2- 1- 1
take 1 0 3
entry 7 1+
take 1 0 4
- 0
entry 1 8 1
answer 8 1 taken
grant 1 8 2 1- 1 1
noentry 1 7 held 8
done 13
= too long is told before held
+ four segments
+ trains
+ both on
entry 10 1+
take 1 0 5
- 0
entry 1 7 1
entry 1 8 1
answer 7 1 taken
answer 8 1 taken
noentry 1 10 toolong
done 16
= known is told before held
+ four segments
+ trains
+ both on
entry 7 1+
take 1 0 5
- 0
entry 1 7 1
entry 1 8 1
answer 7 1 taken
answer 8 1 taken
noentry 1 7 known
done 16
= a refused train is not controlled
+ four segments
+ trains
+ both on
entry 9 1+
take 1 0 5
ask 9 1 2+ 100000
take 1 0 6
- 0
entry 1 7 1
entry 1 8 1
answer 7 1 taken
answer 8 1 taken
noentry 1 9 held 7
deny 1 9 10
done 18
= a held cell going up
+ four segments
+ trains
+ both on
ask 8 1 3- 200000
take 1 0 5
ask 7 1 2+ 3+ 300000
take 1 0 6
- 0
entry 1 7 1
entry 1 8 1
answer 7 1 taken
answer 8 1 taken
grant 1 8 2 3- 200000 1
grant 1 7 2 3+ 100000 3
done 18
= a held cell going down
+ four segments
+ trains
+ both on
ask 7 1 2+ 3+ 100000
take 1 0 5
ask 8 1 3- 2- 300000
take 1 0 6
- 0
entry 1 7 1
entry 1 8 1
answer 7 1 taken
answer 8 1 taken
grant 1 7 2 3+ 100000 1
grant 1 8 2 3- 200000 3
done 18
= a held cell at the end of the ask
+ four segments
+ trains
+ both on
ask 8 1 3- 200000
take 1 0 5
ask 7 1 2+ 3+ 100000
take 1 0 6
- 0
entry 1 7 1
entry 1 8 1
answer 7 1 taken
answer 8 1 taken
grant 1 8 2 3- 200000 1
grant 1 7 2 3+ 100000 1
done 18
= a held cell one mm before the end of the ask
+ four segments
+ trains
+ both on
ask 8 1 3- 200000
take 1 0 5
ask 7 1 2+ 3+ 100001
take 1 0 6
- 0
entry 1 7 1
entry 1 8 1
answer 7 1 taken
answer 8 1 taken
grant 1 8 2 3- 200000 1
grant 1 7 2 3+ 100000 3
done 18
= a held cell at the limit
+ four segments
+ trains
+ both on
ask 8 1 3- 2- 300000
take 1 0 5
ask 7 1 2+ 100000
take 1 0 6
- 0
entry 1 7 1
entry 1 8 1
answer 7 1 taken
answer 8 1 taken
grant 1 8 2 2- 300000 1
deny 1 7 3
done 18
= the end of the ask and a held cell at the limit
+ four segments
+ trains
+ both on
ask 7 1 2+ 100000
take 1 0 5
ask 8 1 3- 2- 300000
take 1 0 6
ask 7 1 2+ 100000
take 1 0 7
ask 7 1 2+ 100001
take 1 0 8
- 0
entry 1 7 1
entry 1 8 1
answer 7 1 taken
answer 8 1 taken
grant 1 7 2 2+ 100000 1
grant 1 8 2 2- 200000 3
deny 1 7 1
deny 1 7 3
done 22
= an ask over its own cells
+ four segments
+ trains
+ both on
ask 7 1 1+ 2+ 100000
take 1 0 5
ask 7 1 2+ 3+ 50000
take 1 0 6
- 0
entry 1 7 1
entry 1 8 1
answer 7 1 taken
answer 8 1 taken
grant 1 7 2 2+ 100000 1
grant 1 7 3 3+ 50000 1
done 18
= a held cell where the path is full
+ short segments
script
train 7 1000 10 100 eq
train 8 1000 10 100 eq
entry 7 1+
take 1 0 1
entry 8 26-
take 1 0 2
take 0 1 1
take 0 1 2
enter 7
enter 8
take 1 0 3
take 1 0 4
ask 8 1 25- 1000
take 1 0 5
ask 7 1 2+ 3+ 4+ 5+ 6+ 7+ 8+ 9+ 10+ 11+ 12+ 13+ 14+ 15+ 16+ 17+ 18+ 19+ 20+ 21+ 22+ 23+ 24+ 25+ 1000
take 1 0 6
- 0
entry 1 7 1
entry 1 8 1
answer 7 1 taken
answer 8 1 taken
grant 1 8 2 25- 1000 1
grant 1 7 2 24+ 1000 3
done 16
= a train declared again
+ four segments
+ trains
train 8 50000 1000 10000 eq
- 4
script 16 column 7
= a train declared again once it is on
+ four segments
+ trains
+ both on
train 7 60000 2000 20000 eq
- 4
entry 1 7 1
entry 1 8 1
answer 7 1 taken
answer 8 1 taken
script 26 column 7
= the entry authority of another train
+ four segments
+ trains
entry 7 1+
take 1 0 1
take 0 1 1
enter 8
- 5
entry 1 7 1
premise 19 P5
= the first portal of another train
+ four segments
+ trains
+ both on
entry 8 1+
- 5
entry 1 7 1
entry 1 8 1
answer 7 1 taken
answer 8 1 taken
premise 26 P5
= the counted answer of another train
+ four segments
+ trains
entry 7 1+
take 1 0 1
entry 8 4-
take 1 0 2
take 0 1 1
take 0 1 2
enter 7
enter 8
take 1 0 3
ask 8 1 3- 100000
take 1 0 5
- 0
entry 1 7 1
entry 1 8 1
answer 7 1 taken
answer 8 1 taken
deny 1 8 10
done 15
/ Trains that move: growth, how far they reach, and what stops the next one.
= a train follows another up to its rear
+ four segments
+ asks for entry
+ comes on
+ goes on
deliver 0
step 7000 7 140000
report 7 1 2+ 100000 1
deliver 1
+ follows
ask 8 1 2+ 3+ 300000
deliver 1
- 0
entry 1 7 1
answer 7 1 taken
grant 1 7 2 3+ 300000 1
answer 7 2 taken
place 1 7 2+ 38000 2+ 100000
entry 1 8 1
answer 8 1 taken
grant 1 8 2 2+ 38000 3
done 20
= the same ask again
+ four segments
+ asks for entry
+ comes on
+ goes on
ask 7 1 2+ 3+ 300000
deliver 1
- 0
entry 1 7 1
answer 7 1 taken
grant 1 7 2 3+ 300000 1
deny 1 7 1
done 10
= a further ask past the last step
+ four segments
+ asks for entry
+ comes on
+ goes on
ask 7 1 4+ 200000
deliver 1
- 0
entry 1 7 1
answer 7 1 taken
grant 1 7 2 3+ 300000 1
grant 1 7 3 4+ 100000 2
done 10
= a denied ask spends no number
+ four segments
+ asks for entry
+ comes on
+ goes on
ask 7 1 2+ 3+ 300000
deliver 1
ask 7 1 4+ 200000
deliver 1
- 0
entry 1 7 1
answer 7 1 taken
grant 1 7 2 3+ 300000 1
deny 1 7 1
grant 1 7 3 4+ 100000 2
done 12
= a way of 24 steps is full
+ short segments
script
train 7 1000 0 20000 eq
entry 7 1+
deliver 1
deliver 0
enter 7
deliver 1
ask 7 1 2+ 3+ 4+ 5+ 6+ 7+ 8+ 9+ 10+ 11+ 12+ 13+ 14+ 15+ 16+ 17+ 18+ 19+ 20+ 21+ 22+ 23+ 24+ 25+ 1000
deliver 1
ask 7 1 2+ 3+ 4+ 5+ 6+ 7+ 8+ 9+ 10+ 11+ 12+ 13+ 14+ 15+ 16+ 17+ 18+ 19+ 20+ 21+ 22+ 23+ 24+ 25+ 1000
deliver 1
- 0
entry 1 7 1
answer 7 1 taken
grant 1 7 2 24+ 1000 12
deny 1 7 12
done 10
= ten short steps, told once
+ four segments
+ slow train
+ comes on
step 1
step 1
step 1
step 1
step 1
step 1
step 1
step 1
step 1
step 1
time 1 0
take 1 0 3
report 7 1 1+ 60000 1
take 1 0 4
- 0
entry 1 7 1
answer 7 1 taken
place 1 7 1+ 0 1+ 60003
done 20
= ten short steps, each told
+ four segments
+ slow train
+ comes on
step 1
time 1 0
take 1 0 3
step 1
time 1 0
take 1 0 4
step 1
time 1 0
take 1 0 5
step 1
time 1 0
take 1 0 6
step 1
time 1 0
take 1 0 7
step 1
time 1 0
take 1 0 8
step 1
time 1 0
take 1 0 9
step 1
time 1 0
take 1 0 10
step 1
time 1 0
take 1 0 11
step 1
time 1 0
take 1 0 12
report 7 1 1+ 60000 1
take 1 0 13
- 0
entry 1 7 1
answer 7 1 taken
place 1 7 1+ 0 1+ 60000
done 38
= growth is rounded down at each message
+ four segments
+ slow train
+ comes on
step 1
time 1 0
take 1 0 3
step 3
report 7 1 1+ 60000 1
take 1 0 4
- 0
entry 1 7 1
answer 7 1 taken
place 1 7 1+ 0 1+ 60000
done 12
= growth stops at the old end of the way
+ four segments
+ asks for entry
+ comes on
report 7 1 1+ 60000 1
step 3000
ask 7 1 2+ 300000
take 1 0 4
take 1 0 3
- 0
entry 1 7 1
answer 7 1 taken
grant 1 7 2 2+ 300000 1
place 1 7 1+ 0 1+ 100000
done 11
= a way has room again behind the rear
+ short segments
script
train 7 1000 0 20000 eq
entry 7 1+
deliver 1
deliver 0
enter 7
deliver 1
ask 7 1 2+ 3+ 4+ 5+ 6+ 7+ 8+ 9+ 10+ 11+ 12+ 13+ 14+ 15+ 16+ 17+ 18+ 19+ 20+ 21+ 22+ 23+ 24+ 25+ 1000
deliver 1
deliver 0
step 50 7 1000
report 7 1 2+ 1000 1
deliver 1
ask 7 1 25+ 26+ 1000
deliver 1
- 0
entry 1 7 1
answer 7 1 taken
grant 1 7 2 24+ 1000 12
answer 7 2 taken
place 1 7 2+ 0 2+ 1000
grant 1 7 3 25+ 1000 12
done 14
= going down the line
+ four segments
script
train 8 60000 2000 20000 eq
entry 8 4-
deliver 1
deliver 0
enter 8
deliver 1
ask 8 1 3- 2- 300000
deliver 1
deliver 0
step 7000 8 140000
report 8 1 3- 100000 1
deliver 1
train 9 60000 2000 20000 eq
entry 9 4-
deliver 1
deliver 0
enter 9
deliver 1
ask 9 1 3- 300000
deliver 1
- 0
entry 1 8 1
answer 8 1 taken
grant 1 8 2 2- 300000 1
answer 8 2 taken
place 1 8 3- 38000 3- 100000
entry 1 9 1
answer 9 1 taken
grant 1 9 2 3- 38000 3
done 20
= held cells behind the limit on its segment
+ four segments
+ asks for entry
+ comes on
ask 7 1 2+ 200000
deliver 1
deliver 0
step 7000 7 140000
report 7 1 2+ 100000 1
deliver 1
+ follows
ask 8 1 2+ 300000
deliver 1
ask 7 1 2+ 3+ 100000
deliver 1
ask 8 1 2+ 300000
deliver 1
- 0
entry 1 7 1
answer 7 1 taken
grant 1 7 2 2+ 200000 1
answer 7 2 taken
place 1 7 2+ 38000 2+ 100000
entry 1 8 1
answer 8 1 taken
grant 1 8 2 2+ 38000 3
grant 1 7 3 3+ 100000 1
deny 1 8 3
done 24
= held cells behind the limit of the second of three
+ four segments
script
train 7 20000 0 20000 eq
train 8 20000 0 20000 eq
train 9 20000 0 20000 eq
entry 7 1+
deliver 1
deliver 0
enter 7
deliver 1
ask 7 1 2+ 3+ 300000
deliver 1
deliver 0
step 9000 7 180000
report 7 1 2+ 100000 1
deliver 1
entry 8 1+
deliver 1
deliver 0
enter 8
deliver 1
ask 8 1 2+ 300000
deliver 1
deliver 0
step 6000 7 120000 8 120000
report 7 1 2+ 220000 1
report 8 1 2+ 40000 1
deliver 1
entry 9 1+
deliver 1
deliver 0
enter 9
deliver 1
ask 9 1 2+ 300000
deliver 1
ask 8 1 2+ 300000
deliver 1
- 0
entry 1 7 1
answer 7 1 taken
grant 1 7 2 3+ 300000 1
answer 7 2 taken
place 1 7 2+ 80000 2+ 100000
entry 1 8 1
answer 8 1 taken
grant 1 8 2 2+ 80000 3
answer 8 2 taken
place 1 7 2+ 200000 2+ 220000
alarm silent 1 8
place 1 8 2+ 20000 2+ 40000
entry 1 9 1
answer 9 1 taken
grant 1 9 2 2+ 20000 3
grant 1 8 3 2+ 200000 3
done 35
/ What breaks the premises on reports, speed and limits.
= a step faster than the train
+ four segments
+ asks for entry
+ comes on
+ goes on
step 1000 7 20001
- 5
entry 1 7 1
answer 7 1 taken
grant 1 7 2 3+ 300000 1
premise 20 P2
= a step past the limit held
+ four segments
+ asks for entry
+ comes on
+ goes on
step 3000 7 40001
- 5
entry 1 7 1
answer 7 1 taken
grant 1 7 2 3+ 300000 1
premise 20 P4
= a report off by more than the error
+ four segments
+ asks for entry
+ comes on
+ goes on
report 7 1 1+ 62001 1
- 5
entry 1 7 1
answer 7 1 taken
grant 1 7 2 3+ 300000 1
premise 20 P1
= a slow train moves nothing in 1 ms
+ four segments
+ slow train
+ comes on
step 1 7 0
step 1 7 1
- 5
entry 1 7 1
answer 7 1 taken
premise 19 P2
= 1 mm in 4 ms, and not in 3
+ four segments
+ slow train
+ comes on
step 4 7 1
report 7 1 1+ 60001 1
take 1 0 3
step 3 7 1
- 5
entry 1 7 1
answer 7 1 taken
place 1 7 1+ 0 1+ 60001
premise 21 P2
= a report of a train that is not on the line
+ four segments
+ asks for entry
take 1 0 1
take 0 1 1
report 7 1 1+ 60000 1
- 5
entry 1 7 1
premise 16 P1
= a report of another step than the head's
+ four segments
+ asks for entry
+ comes on
report 7 1 2+ 60000 1
- 5
entry 1 7 1
answer 7 1 taken
premise 18 P1
= a head at the end of a step is on that step
+ four segments
+ asks for entry
+ comes on
step 2000 7 40000
report 7 1 2+ 0 1
- 5
entry 1 7 1
answer 7 1 taken
premise 19 P1
= reports off by the whole error
+ four segments
+ asks for entry
+ comes on
report 7 1 1+ 58000 1
report 7 1 1+ 62000 1
take 1 0 3
take 1 0 4
- 0
entry 1 7 1
answer 7 1 taken
place 1 7 1+ 0 1+ 60000
place 1 7 1+ 0 1+ 60000
done 10
= a report below by one mm more than the error
+ four segments
+ asks for entry
+ comes on
report 7 1 1+ 57999 1
- 5
entry 1 7 1
answer 7 1 taken
premise 18 P1
= a report from before the step's start
+ four segments
script
train 7 60000 59999 20000 eq
entry 7 1+
+ comes on
+ goes on
take 0 1 2
step 2005 7 40100
report 7 1 2+ -59899 1
deliver 1
- 0
entry 1 7 1
answer 7 1 taken
grant 1 7 2 3+ 300000 1
answer 7 2 taken
place 1 7 1+ 0 2+ 100
done 12
= a step that is too fast and too far
+ four segments
+ asks for entry
+ comes on
step 1000 7 40001
- 5
entry 1 7 1
answer 7 1 taken
premise 18 P2
= the first train too far, the second too fast
+ four segments
+ trains
+ both on
step 3000 7 40001 8 60001
- 5
entry 1 7 1
entry 1 8 1
answer 7 1 taken
answer 8 1 taken
premise 26 P2
= a step of a train that is not on the line
+ four segments
+ asks for entry
step 1000 7 0
- 5
premise 14 P4
= a step to the limit, and one mm on
+ four segments
+ asks for entry
+ comes on
step 2000 7 40000
step 1000 7 1
- 5
entry 1 7 1
answer 7 1 taken
premise 19 P4
= an authority that was not taken moves no limit
+ four segments
+ asks for entry
+ comes on
+ goes on
step 2000 7 40000
step 1000 7 1
- 5
entry 1 7 1
answer 7 1 taken
grant 1 7 2 3+ 300000 1
premise 21 P4
/ Reports: what they leave, and what is free behind the rear; Now and the Time.
= reports in reverse order
+ four segments
+ asks for entry
+ comes on
+ goes on
take 0 1 2
step 4000 7 50000
report 7 1 2+ 8000 1
step 100
report 7 1 2+ 12000 1
take 1 0 6
take 1 0 5
- 0
entry 1 7 1
answer 7 1 taken
grant 1 7 2 3+ 300000 1
answer 7 2 taken
place 1 7 1+ 50000 2+ 14000
place 1 7 1+ 50000 2+ 12000
done 15
= a report older than the last growth
+ four segments
+ asks for entry
+ comes on
step 3000
report 7 1 1+ 60000 1
step 1000
time 1 0
take 1 0 4
take 1 0 3
- 0
entry 1 7 1
answer 7 1 taken
place 1 7 1+ 0 1+ 82000
done 12
= a report without integrity leaves the rear
+ four segments
+ asks for entry
+ comes on
+ goes on
+ moves
report 7 1 2+ 100000 0
deliver 1
train 8 60000 2000 20000 eq
entry 8 1+
deliver 1
report 7 1 2+ 100000 1
deliver 1
entry 8 1+
deliver 1
- 0
entry 1 7 1
answer 7 1 taken
grant 1 7 2 3+ 300000 1
answer 7 2 taken
place 1 7 1+ 0 2+ 100000
noentry 1 8 held 7
place 1 7 2+ 38000 2+ 100000
entry 1 8 1
done 19
= a report without integrity bounds the front
+ four segments
+ asks for entry
+ comes on
step 2000
report 7 1 1+ 59000 0
take 1 0 3
- 0
entry 1 7 1
answer 7 1 taken
place 1 7 1+ 0 1+ 61000
done 9
= the rear exactly at the end of a step
+ four segments
+ asks for entry
+ comes on
+ goes on
take 0 1 2
step 5100 7 102000
report 7 1 2+ 62000 1
deliver 1
+ follows
ask 8 1 2+ 3+ 300000
deliver 1
- 0
entry 1 7 1
answer 7 1 taken
grant 1 7 2 3+ 300000 1
answer 7 2 taken
place 1 7 2+ 0 2+ 62000
entry 1 8 1
answer 8 1 taken
deny 1 8 3
done 20
= the rear one mm before the end of a step
+ four segments
+ asks for entry
+ comes on
+ goes on
take 0 1 2
step 5100 7 101999
report 7 1 2+ 61999 1
deliver 1
train 8 60000 2000 20000 eq
entry 8 1+
deliver 1
- 0
entry 1 7 1
answer 7 1 taken
grant 1 7 2 3+ 300000 1
answer 7 2 taken
place 1 7 1+ 99999 2+ 62000
noentry 1 8 held 7
done 15
= the rear in the middle of a step
+ four segments
+ asks for entry
+ comes on
+ goes on
+ moves
report 7 1 2+ 100000 1
deliver 1
+ follows
ask 8 1 2+ 38000
deliver 1
ask 8 1 2+ 38001
deliver 1
- 0
entry 1 7 1
answer 7 1 taken
grant 1 7 2 3+ 300000 1
answer 7 2 taken
place 1 7 2+ 38000 2+ 100000
entry 1 8 1
answer 8 1 taken
grant 1 8 2 2+ 38000 1
deny 1 8 3
done 22
= a report of a step behind the rear is not used
+ four segments
+ asks for entry
+ comes on
+ goes on
report 7 1 1+ 60000 1
take 0 1 2
step 5100 7 102000
report 7 1 2+ 62000 1
take 1 0 6
take 1 0 4
- 0
entry 1 7 1
answer 7 1 taken
grant 1 7 2 3+ 300000 1
answer 7 2 taken
place 1 7 2+ 0 2+ 62000
done 14
= a report of the step of the rear is used
+ four segments
+ asks for entry
+ comes on
+ goes on
report 7 1 1+ 60000 1
take 0 1 2
step 5100 7 101999
report 7 1 2+ 61999 1
take 1 0 6
take 1 0 4
- 0
entry 1 7 1
answer 7 1 taken
grant 1 7 2 3+ 300000 1
answer 7 2 taken
place 1 7 1+ 99999 2+ 62000
place 1 7 1+ 99999 2+ 62000
done 14
= an authority behind dropped steps
+ four segments
+ asks for entry
+ comes on
+ goes on
take 0 1 2
step 5100 7 102000
report 7 1 2+ 62000 1
deliver 1
ask 7 1 4+ 100000
deliver 1
take 0 1 3
step 31900 7 638000
report 7 1 4+ 100000 1
deliver 1
step 1000 7 1
- 5
entry 1 7 1
answer 7 1 taken
grant 1 7 2 3+ 300000 1
answer 7 2 taken
place 1 7 2+ 0 2+ 62000
grant 1 7 3 4+ 100000 1
answer 7 3 taken
place 1 7 4+ 38000 4+ 100000
premise 30 P4
= an authority sent again begins at the later rear
+ four segments
+ asks for entry
+ comes on
+ goes on
take 0 1 2
ask 7 1 4+ 100000
deliver 1
step 5100 7 102000
report 7 1 2+ 62000 1
deliver 1
time 1 7
deliver 1
take 0 1 4
step 31900 7 638000
step 1000 7 1
- 5
entry 1 7 1
answer 7 1 taken
grant 1 7 2 3+ 300000 1
answer 7 2 taken
grant 1 7 3 4+ 100000 1
place 1 7 2+ 0 2+ 62000
answer 7 3 taken
premise 30 P4
= a Time for a train sends its last authority again
+ four segments
+ asks for entry
+ comes on
+ goes on
time 1 7
take 1 0 4
take 0 1 3
- 0
entry 1 7 1
answer 7 1 taken
grant 1 7 2 3+ 300000 1
answer 7 2 taken
done 11
= a Time for no train sends nothing
+ four segments
+ asks for entry
+ comes on
+ goes on
time 1 0
take 1 0 4
take 0 1 3
- 5
entry 1 7 1
answer 7 1 taken
grant 1 7 2 3+ 300000 1
premise 22 P6
= a Time for an answered train sends nothing
+ four segments
+ asks for entry
+ comes on
+ goes on
take 0 1 2
take 1 0 4
time 1 7
take 1 0 5
take 0 1 3
- 5
entry 1 7 1
answer 7 1 taken
grant 1 7 2 3+ 300000 1
answer 7 2 taken
premise 24 P6
= an answer older than the last counted
+ four segments
+ asks for entry
+ comes on
+ goes on
take 0 1 2
take 1 0 4
take 1 0 2
time 1 7
take 1 0 5
deliver 0
take 0 1 3
- 5
entry 1 7 1
answer 7 1 taken
grant 1 7 2 3+ 300000 1
answer 7 2 taken
premise 26 P6
= Now raised by a Time for another train
+ four segments
+ asks for entry
+ comes on
train 8 60000 2000 20000 eq
report 7 1 1+ 60000 1
step 1000
time 1 8
take 1 0 4
take 1 0 3
- 0
entry 1 7 1
answer 7 1 taken
place 1 7 1+ 0 1+ 80000
done 12
= Now raised by an answer of an old number
+ four segments
+ asks for entry
+ comes on
report 7 1 1+ 60000 1
step 500
take 0 1 1
take 1 0 4
take 1 0 3
- 0
entry 1 7 1
answer 7 1 taken
answer 7 1 taken
place 1 7 1+ 0 1+ 70000
done 11
/ Silence.
= silent one ms past the time, not at it
+ four segments
+ silent after 10
+ asks for entry
+ comes on
step 10
time 1 0
take 1 0 3
ask 7 1 2+ 100000
take 1 0 4
step 1
ask 7 1 2+ 200000
take 1 0 5
ask 7 1 2+ 200000
take 1 0 6
report 7 1 1+ 60000 1
take 1 0 7
ask 7 1 2+ 200000
take 1 0 8
- 0
entry 1 7 1
answer 7 1 taken
grant 1 7 2 2+ 100000 1
deny 1 7 11
alarm silent 1 7
deny 1 7 11
place 1 7 1+ 0 1+ 60220
grant 1 7 3 2+ 200000 1
done 20
= an ask exactly at the time
+ four segments
+ silent after 10
+ asks for entry
+ comes on
step 10
ask 7 1 2+ 100000
take 1 0 3
- 0
entry 1 7 1
answer 7 1 taken
grant 1 7 2 2+ 100000 1
done 9
= not joined is told before silent
+ four segments
+ silent after 10
+ asks for entry
+ comes on
step 11
ask 7 1 3+ 100000
take 1 0 3
- 0
entry 1 7 1
answer 7 1 taken
deny 1 7 10
alarm silent 1 7
done 9
= an old report ends no silence
+ four segments
+ silent after 10
+ asks for entry
+ comes on
report 7 1 1+ 60000 1
step 11
time 1 0
take 1 0 4
take 1 0 3
ask 7 1 2+ 100000
take 1 0 5
- 0
entry 1 7 1
answer 7 1 taken
alarm silent 1 7
place 1 7 1+ 0 1+ 60220
deny 1 7 11
done 13
= a report of the moment of the alarm
+ four segments
+ silent after 10
+ asks for entry
+ comes on
step 11
report 7 1 1+ 60000 1
take 1 0 3
- 0
entry 1 7 1
answer 7 1 taken
place 1 7 1+ 0 1+ 60220
done 9
= an alarm again after a report
+ four segments
+ silent after 10
+ asks for entry
+ comes on
step 11
time 1 0
take 1 0 3
report 7 1 1+ 60000 1
take 1 0 4
step 11
time 1 0
take 1 0 5
- 0
entry 1 7 1
answer 7 1 taken
alarm silent 1 7
place 1 7 1+ 0 1+ 60220
alarm silent 1 7
done 14
= alarms by ascending train
+ four segments
+ silent after 10
+ trains
entry 8 4-
take 1 0 1
entry 7 1+
take 1 0 2
step 11
time 1 0
take 1 0 3
- 0
entry 1 8 1
entry 1 7 1
alarm silent 1 7
alarm silent 1 8
done 11
= an entry counts as a report at Now
+ four segments
+ silent after 10
+ asks for entry
step 100
time 1 0
take 1 0 2
take 1 0 1
step 10
time 1 0
take 1 0 3
take 0 1 1
enter 7
step 1
time 1 0
take 1 0 5
- 0
entry 1 7 1
answer 7 1 taken
alarm silent 1 7
done 14
= 5000 ms where no item says
+ four segments
+ asks for entry
+ comes on
step 5000
time 1 0
take 1 0 3
ask 7 1 2+ 100000
take 1 0 4
step 1
time 1 0
take 1 0 5
- 0
entry 1 7 1
answer 7 1 taken
grant 1 7 2 2+ 100000 1
alarm silent 1 7
done 14
/ Deliveries.
= deliveries of nothing
+ four segments
script
deliver 0
deliver 1
- 0
done 2
= a delivery of three messages is one event
+ four segments
+ trains
entry 7 1+
entry 8 4-
entry 9 1+
deliver 1
- 0
entry 1 7 1
entry 1 8 1
noentry 1 9 held 7
done 8
= a delivery begins behind the greatest taken
+ four segments
+ asks for entry
entry 7 1+
entry 7 1+
take 1 0 2
deliver 1
take 1 0 1
deliver 1
- 0
entry 1 7 1
noentry 1 7 known
noentry 1 7 known
done 8
= a message again behind a delivery
+ four segments
+ asks for entry
deliver 1
take 1 0 1
deliver 1
- 0
entry 1 7 1
noentry 1 7 known
done 5
/ Fields out of their ranges and things that are not declared.
= a step of no time
+ four segments
+ asks for entry
step 0
- 4
script 14 column 6
= a step of more than a minute
+ four segments
+ asks for entry
step 60001
- 4
script 14 column 6
= a train without mm in a step
+ four segments
+ asks for entry
step 1000 7
- 4
script 14 column 12
= mm out of their range
+ four segments
+ asks for entry
step 60000 7 3600001
- 4
script 14 column 14
= a train twice in a step
+ four segments
+ asks for entry
+ comes on
step 1000 7 0 7 0
- 4
entry 1 7 1
answer 7 1 taken
script 18 column 15
= trains that descend in a step
+ four segments
+ trains
+ both on
step 1000 8 0 7 0
- 4
entry 1 7 1
entry 1 8 1
answer 7 1 taken
answer 8 1 taken
script 26 column 15
= a train that is not declared in a step
+ four segments
+ asks for entry
+ comes on
step 1000 7 0 8 0
- 4
entry 1 7 1
answer 7 1 taken
script 18 column 15
= a field before a premise
+ four segments
+ asks for entry
step 1000 7 0 8 0
- 4
script 14 column 15
= a report with another flag
+ four segments
+ asks for entry
+ comes on
report 7 1 1+ 60000 2
- 4
entry 1 7 1
answer 7 1 taken
script 18 column 21
= a report with the offset -0
+ four segments
+ asks for entry
+ comes on
report 7 1 1+ -0 1
- 4
entry 1 7 1
answer 7 1 taken
script 18 column 16
= a report with an offset out of its range
+ four segments
+ asks for entry
+ comes on
report 7 1 1+ -1000001 1
- 4
entry 1 7 1
answer 7 1 taken
script 18 column 15
= a report to a zone that is not declared
+ four segments
+ asks for entry
+ comes on
report 7 2 1+ 60000 1
- 4
entry 1 7 1
answer 7 1 taken
script 18 column 10
= a time for a train that is not declared
+ four segments
+ asks for entry
+ comes on
time 1 8
- 4
entry 1 7 1
answer 7 1 taken
script 18 column 8
= a time to a zone that is not declared
+ four segments
+ asks for entry
+ comes on
time 2 7
- 4
entry 1 7 1
answer 7 1 taken
script 18 column 6
= a delivery to a zone that is not declared
+ four segments
+ asks for entry
+ comes on
deliver 2
- 4
entry 1 7 1
answer 7 1 taken
script 18 column 9
= silent in the script
+ four segments
script
silent 10
- 4
script 12 column 2
/ Bytes that are no frame, markers, and messages that are lost.
= cut frame as noise is short
+ four segments
script
noise 1 0 0103
- 0
noise 1 short
done 1
= frame with a byte more as noise is long
+ four segments
script
noise 1 0 01030000000000002710000700
- 0
noise 1 long
done 1
= frame with a byte less as noise is short
+ four segments
script
noise 1 0 0103000000000000271000
- 0
noise 1 short
done 1
= noise that is a frame is refused
+ four segments
script
noise 1 0 010300000000000027100007
- 5
premise 12 P6
= each fault of noise
+ four segments
script
noise 1 0 01
noise 0 1 02
noise 0 1 0203
noise 1 0 0100
noise 1 0 0111
noise 1 0 01070000
noise 0 1 01070007ff00000000000000
noise 1 0 01030000000000002710
noise 0 1 010300000000000027100007ff
- 0
noise 1 short
noise 0 version
noise 0 version
noise 1 kind
noise 1 kind
noise 1 field 2
noise 0 field 4
noise 1 short
noise 0 long
done 9
= noise changes nothing
+ four segments
+ asks for entry
noise 1 0 0103
noise 0 1 00
deliver 1
deliver 0
enter 7
- 0
noise 1 short
noise 0 version
entry 1 7 1
answer 7 1 taken
done 7
= a delivery passes over what is lost
+ four segments
+ asks for entry
entry 7 1+
lost 0 1 1
deliver 1
take 1 0 1
deliver 1
- 0
entry 1 7 1
noentry 1 7 known
done 7
= a message named lost before it is sent
+ four segments
script
train 7 60000 2000 20000 eq
lost 0 1 1
entry 7 1+
deliver 1
take 1 0 1
- 0
entry 1 7 1
done 5
= an authority that is lost
+ four segments
+ asks for entry
take 1 0 1
lost 1 0 1
deliver 0
enter 7
- 5
entry 1 7 1
premise 17 P5
= losses of messages that are never sent
+ four segments
+ asks for entry
lost 0 1 2
lost 1 0 1
lost 0 1 200001
lost 1 0 4294967295
deliver 1
- 0
entry 1 7 1
done 7
= a loss on no link
+ four segments
script
lost 0 0 5
- 4
script 12 column 8
= markers
+ four segments
script
round 1
round 2000
- 0
done 2
= a marker of no round
+ four segments
script
round 0
- 4
script 12 column 7
/ Documents that are checked, and what stands in a check as in a run.
= check drops comments and blank lines
# a line of one segment

zone 1
segment 1 1 1000
buffer 1-

buffer 1+
script

# two events
train 7 60 2 20 eq
deliver 0
* 0
zone 1
segment 1 1 1000
buffer 1-
buffer 1+
script
train 7 60 2 20 eq
deliver 0
done 2
= a check tries no premise
+ four segments
script
train 7 60000 2000 20000 eq
enter 7
* 0
+ four segments
script
train 7 60000 2000 20000 eq
enter 7
done 2
= a check without the word
+ four segments
* 0
+ four segments
done 0
= a check of a line that does not finish
zone 1
segment 1 1 1000
* 3
zone 1
segment 1 1 1000
line 3 rule 7
= a check of a refused item
zone 1
zone 2
* 10
zone 1
unbuilt 2
= a check of a text that is no item
zone 1
zones
* 3
zone 1
line 2 column 5
= a plan is not built in a check
+ four segments
plan
* 10
+ four segments
unbuilt 11
= a plan has no place in a run
+ four segments
plan
- 4
script 11 column 1
= noise, markers and losses in a check
+ four segments
script
noise 1 0 0103
noise 1 0 010300000000000027100007
round 1
lost 0 1 9
* 0
+ four segments
script
noise 1 0 0103
noise 1 0 010300000000000027100007
round 1
lost 0 1 9
done 4
= leave is not built, whatever it names
+ four segments
script
leave 9
- 10
unbuilt 12
= keepfail is not built in a check
+ four segments
script
keepfail 1 old
* 10
+ four segments
script
unbuilt 12
= an order on what is not declared
+ four segments
script
order close 99
- 4
script 12 column 13
= orders in a check
+ four segments
script
order close 2
order open 2
* 0
+ four segments
script
order close 2
order open 2
done 2
= further orders are not built, whatever they name
+ four segments
script
order turn 99 +
- 10
unbuilt 12
= unequipped trains are not built, whatever their fields
+ four segments
script
train 0 60 2 20 un
- 10
unbuilt 12
= unequipped trains are not built in a check
+ four segments
script
train 7 60 2 20 un
* 10
+ four segments
script
unbuilt 12
= a field is refused in a check
+ four segments
script
deliver 0
enter 7
* 4
+ four segments
script
deliver 0
script 13 column 7
= a text that is no event in a check
+ four segments
script
deliver
* 4
+ four segments
script
script 12 column 8
= two fields that would be refused
+ four segments
script
take 2 2 1
- 4
script 12 column 6
/ Segments that are closed and opened again.
= a closed segment ahead
+ four segments
+ asks for entry
+ comes on
order close 3
take 1 0 3
ask 7 1 2+ 3+ 300000
take 1 0 4
take 1 0 4
order open 3
take 1 0 5
take 1 0 4
- 0
entry 1 7 1
answer 7 1 taken
closed 1 3
grant 1 7 2 2+ 300000 7
deny 1 7 7
opened 1 3
grant 1 7 3 3+ 300000 1
done 14
= a close takes nothing back
+ four segments
+ asks for entry
+ comes on
+ goes on
order close 2
take 1 0 4
+ moves
- 0
entry 1 7 1
answer 7 1 taken
grant 1 7 2 3+ 300000 1
closed 1 2
answer 7 2 taken
done 12
= closed where the limit stands
+ four segments
+ asks for entry
+ comes on
ask 7 1 2+ 100000
take 1 0 3
order close 2
take 1 0 4
ask 7 1 2+ 200000
take 1 0 5
order open 2
take 1 0 6
take 1 0 5
- 0
entry 1 7 1
answer 7 1 taken
grant 1 7 2 2+ 100000 1
closed 1 2
deny 1 7 7
opened 1 2
grant 1 7 3 2+ 200000 1
done 15
= closed segments behind the limit
+ four segments
+ asks for entry
+ comes on
ask 7 1 2+ 300000
take 1 0 3
order close 1
order close 2
take 1 0 4
take 1 0 5
ask 7 1 3+ 100
take 1 0 6
- 0
entry 1 7 1
answer 7 1 taken
grant 1 7 2 2+ 300000 1
closed 1 1
closed 1 2
grant 1 7 3 3+ 100 1
done 14
= the end of the ask before what is closed
+ four segments
+ asks for entry
+ comes on
ask 7 1 2+ 100000
take 1 0 3
order close 2
take 1 0 4
ask 7 1 2+ 50000
take 1 0 5
- 0
entry 1 7 1
answer 7 1 taken
grant 1 7 2 2+ 100000 1
closed 1 2
deny 1 7 1
done 12
= held and closed at one place
+ four segments
+ trains
+ both on
order close 4
take 1 0 5
ask 7 1 2+ 3+ 4+ 100000
take 1 0 6
- 0
entry 1 7 1
entry 1 8 1
answer 7 1 taken
answer 8 1 taken
closed 1 4
grant 1 7 2 3+ 300000 3
done 18
= orders given twice
+ four segments
script
order close 2
take 1 0 1
take 1 0 1
order open 2
take 1 0 2
take 1 0 2
- 0
closed 1 2
closed 1 2
opened 1 2
opened 1 2
done 6
= orders taken in reverse order
+ four segments
+ asks for entry
+ comes on
order close 3
order open 3
take 1 0 4
take 1 0 3
ask 7 1 2+ 3+ 300000
take 1 0 5
- 0
entry 1 7 1
answer 7 1 taken
opened 1 3
closed 1 3
grant 1 7 2 2+ 300000 7
done 12
= a train under a brake of its line
+ four segments
brake 0 0 100000
script
train 7 60000 2000 20000 eq
entry 7 1+
deliver 1
deliver 0
enter 7
deliver 1
ask 7 1 2+ 100000
deliver 1
deliver 0
step 1000 7 20000
ask 7 1 2+ 300000
deliver 1
deliver 0
deliver 0
take 0 1 2
- 0
entry 1 7 1
answer 7 1 taken
grant 1 7 2 2+ 100000 1
answer 7 2 taken
grant 1 7 3 2+ 300000 1
answer 7 3 taken
answer 7 3 taken
done 15
/ Ways that orders shorten.
= a short order at the greatest front
+ four segments
+ asks for entry
+ comes on
+ goes on
order short 1 7 1+ 60000
take 1 0 4
take 0 1 2
take 0 1 3
take 1 0 5
take 1 0 6
ask 7 1 2+ 100000
take 1 0 7
- 0
entry 1 7 1
answer 7 1 taken
grant 1 7 2 3+ 300000 1
short 1 7 3 1+ 60000
answer 7 2 taken
answer 7 3 taken
grant 1 7 4 2+ 100000 1
done 16
= a short order before the greatest front
+ four segments
+ asks for entry
+ comes on
+ goes on
order short 1 7 1+ 59999
take 1 0 4
- 0
entry 1 7 1
answer 7 1 taken
grant 1 7 2 3+ 300000 1
noshort 1 7 place
done 10
= short orders at the limit, before it, and again
+ four segments
+ asks for entry
+ comes on
+ goes on
order short 1 7 3+ 300000
take 1 0 4
order short 1 7 3+ 299999
take 1 0 5
order short 1 7 3+ 299999
take 1 0 6
- 0
entry 1 7 1
answer 7 1 taken
grant 1 7 2 3+ 300000 1
noshort 1 7 place
short 1 7 3 3+ 299999
noshort 1 7 pending
done 14
= steps that are not on the way
+ four segments
+ asks for entry
+ comes on
+ goes on
order short 1 7 4+ 50
take 1 0 4
order short 1 7 2- 50
take 1 0 5
- 0
entry 1 7 1
answer 7 1 taken
grant 1 7 2 3+ 300000 1
noshort 1 7 place
noshort 1 7 place
done 12
= past the length of its step
+ four segments
+ asks for entry
+ comes on
+ goes on
order short 1 7 1+ 150000
take 1 0 4
- 0
entry 1 7 1
answer 7 1 taken
grant 1 7 2 3+ 300000 1
short 1 7 3 2+ 50000
done 10
= a train that the zone does not control
+ four segments
+ asks for entry
order short 1 7 1+ 70000
take 1 0 2
- 0
noshort 1 7 away
done 4
= a shrink before its train comes on
+ four segments
+ asks for entry
take 1 0 1
order short 1 7 1+ 70000
take 1 0 2
take 0 1 2
take 0 1 1
enter 7
take 0 1 2
- 0
entry 1 7 1
short 1 7 2 1+ 70000
answer 7 1 taken
answer 7 2 taken
done 9
= a shrink answered taken, twice
+ four segments
+ asks for entry
+ comes on
+ goes on
order short 1 7 2+ 100000
take 1 0 4
take 0 1 2
take 0 1 3
take 1 0 6
take 1 0 6
take 1 0 5
ask 7 1 2+ 3+ 300000
take 1 0 7
- 0
entry 1 7 1
answer 7 1 taken
grant 1 7 2 3+ 300000 1
short 1 7 3 2+ 100000
answer 7 2 taken
answer 7 3 taken
grant 1 7 4 3+ 300000 1
done 17
= a shrink that a train refuses, and one that it takes
+ four segments
+ asks for entry
+ comes on
+ goes on
deliver 0
step 1000 7 20000
order short 1 7 2+ 190099
deliver 1
deliver 0
take 1 0 6
take 1 0 6
order short 1 7 2+ 190100
deliver 1
deliver 0
deliver 1
ask 7 1 2+ 3+ 300000
deliver 1
- 0
entry 1 7 1
answer 7 1 taken
grant 1 7 2 3+ 300000 1
answer 7 2 taken
short 1 7 3 2+ 190099
answer 7 3 refused
short 1 7 4 2+ 190100
answer 7 4 taken
grant 1 7 5 3+ 300000 1
done 21
= a shrink that the fronts have passed
+ four segments
+ asks for entry
+ comes on
+ goes on
take 0 1 2
order short 1 7 2+ 50000
take 1 0 5
step 7000 7 140000
report 7 1 2+ 100000 1
take 1 0 6
ask 7 1 2+ 3+ 4+ 100000
take 1 0 7
take 0 1 3
take 1 0 8
take 0 1 4
- 0
entry 1 7 1
answer 7 1 taken
grant 1 7 2 3+ 300000 1
answer 7 2 taken
short 1 7 3 2+ 50000
place 1 7 2+ 38000 2+ 100000
grant 1 7 4 4+ 100000 1
answer 7 3 refused
answer 7 4 taken
done 19
= a time repeats the shorter path
+ four segments
+ asks for entry
+ comes on
+ goes on
order short 1 7 2+ 100000
take 1 0 4
time 1 7
take 1 0 5
take 0 1 4
step 7000 7 140000
take 0 1 3
take 0 1 2
step 1000 7 1
- 5
entry 1 7 1
answer 7 1 taken
grant 1 7 2 3+ 300000 1
short 1 7 3 2+ 100000
answer 7 3 taken
answer 7 3 taken
answer 7 3 taken
premise 28 P4
= asks while a shrink is unanswered
+ four segments
+ asks for entry
+ comes on
+ goes on
order short 1 7 2+ 100000
take 1 0 4
ask 7 1 2+ 3+ 4+ 100
take 1 0 5
ask 7 1 1+ 50000
take 1 0 6
- 0
entry 1 7 1
answer 7 1 taken
grant 1 7 2 3+ 300000 1
short 1 7 3 2+ 100000
deny 1 7 9
deny 1 7 10
done 14
= another train is granted what a shrink frees
+ four segments
+ trains
+ both on
ask 7 1 2+ 3+ 300000
take 1 0 5
order short 1 7 3+ 100000
take 1 0 6
ask 8 1 3- 300000
take 1 0 7
take 0 1 3
take 0 1 4
take 1 0 9
take 1 0 7
- 0
entry 1 7 1
entry 1 8 1
answer 7 1 taken
answer 8 1 taken
grant 1 7 2 3+ 300000 1
short 1 7 3 3+ 100000
deny 1 8 3
answer 7 2 taken
answer 7 3 taken
grant 1 8 2 3- 200000 3
done 24
/ Calls of the document of one train: first behind a comment by which the first piece of the input, of 65,536 bytes, ends
/ somewhere in it, where the sink is called once for each of the two pieces and once at the end; then those that are no run,
/ and those whose source or sink fails.
= all in the second piece
~ 65535 #
+ four segments
+ asks for entry
+ comes on
+ goes on
! 0 4 1000 1
- 0
+ told of one train
= one byte in the first piece
~ 65534 #
+ four segments
+ asks for entry
+ comes on
+ goes on
! 0 4 1000 1
- 0
+ told of one train
= the first piece ends before an LF
~ 65529 #
+ four segments
+ asks for entry
+ comes on
+ goes on
! 0 4 1000 1
- 0
+ told of one train
= the first piece ends behind an LF
~ 65528 #
+ four segments
+ asks for entry
+ comes on
+ goes on
! 0 4 1000 1
- 0
+ told of one train
= the first piece ends in a word
~ 65523 #
+ four segments
+ asks for entry
+ comes on
+ goes on
! 0 4 1000 1
- 0
+ told of one train
= the script begins the second piece
~ 65396 #
+ four segments
+ asks for entry
+ comes on
+ goes on
! 0 4 1000 1
- 0
+ told of one train
= an LF begins the second piece
~ 65390 #
+ four segments
+ asks for entry
+ comes on
+ goes on
! 0 4 1000 1
- 0
+ told of one train
= a number begins the second piece
~ 65322 #
+ four segments
+ asks for entry
+ comes on
+ goes on
! 0 4 1000 1
- 0
+ told of one train
= the last byte is the second piece
~ 65279 #
+ four segments
+ asks for entry
+ comes on
+ goes on
! 0 4 1000 1
- 0
+ told of one train
= the second read is the end
~ 65278 #
+ four segments
+ asks for entry
+ comes on
+ goes on
! 0 4 1000 1
- 0
+ told of one train
= no LF at the end
+ four segments
+ asks for entry
+ comes on
+ goes on
! 0 0 1000 1
- 0
+ told of one train
= no words
+ four segments
+ asks for entry
+ comes on
+ goes on
$ 2
+ usage
= no such command
$ 2 big 17
+ usage
= a word too many
+ four segments
+ asks for entry
+ comes on
+ goes on
$ 2 run run
+ usage
= no input
- 3
line 1 rule 1
= the first read fails
+ four segments
+ asks for entry
+ comes on
+ goes on
! 1 0 1000 0
- 7
= the second read fails
+ four segments
+ asks for entry
+ comes on
+ goes on
! 2 0 1000 0
- 7
entry 1 7 1
answer 7 1 taken
grant 1 7 2 3+ 300000 1
= the second read of a check fails
zone 1
# a segment
segment 1 1 1000
port
! 2 0 1000 1
* 7
zone 1
segment 1 1 1000
= the first write of a check fails
+ four segments
+ asks for entry
+ comes on
+ goes on
! 0 1 1000 0
* 8
= the first write fails
+ four segments
+ asks for entry
+ comes on
+ goes on
! 0 1 1000 0
- 8
= the usage line fails
! 0 1 1000 0
$ 8
= the second write fails
+ four segments
+ asks for entry
+ comes on
+ goes on
! 0 2 1000 1
- 8
entry 1 7 1
answer 7 1 taken
= a third write would fail
+ four segments
+ asks for entry
+ comes on
+ goes on
! 0 3 1000 1
- 0
+ told of one train
= no room for the lines of the piece
+ four segments
+ asks for entry
+ comes on
+ goes on
! 0 0 28 1
- 8
= no room for the last LF
+ four segments
+ asks for entry
+ comes on
+ goes on
! 0 0 59 1
- 8
entry 1 7 1
answer 7 1 taken
= just room
+ four segments
+ asks for entry
+ comes on
+ goes on
! 0 0 60 1
- 0
+ told of one train
= 110 KB that give 180 KB: the text of each of the two pieces in two writes, and the last line in a fifth
+ four segments
+ asks for entry
@ 10000 take 1 0 1
! 0 6 200000 0
- 0
entry 1 7 1
@ 9999 noentry 1 7 known
done 10002
/ Documents at their limits. A comment may fill the input up to its limit, and no byte more; an item of 4,097 bytes is refused
/ before its end. A line may have 512 segments, and no more: text line 1 is the zone, text line 514 the segment too many. 256
/ trains may be declared, and no more: the first of them is text line 12, the 257th would be text line 268; a field that is
/ refused comes first, as that of a train that is declared already or of an error as great as the length. A check has 200,000
/ events at most, and so has the history of a run, in which a delivery is its takes: of two that are due the first alone may
/ have room.
= the input is full
~ 67108864 #
! 0 0 1000 1
- 3
line 2 rule 1
= the input is too long
~ 67108865 #
! 0 0 1000 1
- 6
limit input 67108864
= an item that goes on
~ 4097 zone 1 
! 0 0 1000 1
- 3
line 1 column 7
= a segment too many
zone 1
@ 513 segment % 1 1000
- 3
line 514 rule 5
= as many trains as there may be
+ four segments
script
@ 256 train % 1000 10 100 eq
- 0
done 256
= a train that is declared already
+ four segments
script
@ 256 train % 1000 10 100 eq
train 256 1000 10 100 eq
- 4
script 268 column 7
= a train too many with a wrong error
+ four segments
script
@ 256 train % 1000 10 100 eq
train 257 1000 1000 100 eq
- 4
script 268 column 16
= a train too many
+ four segments
script
@ 257 train % 1000 10 100 eq
- 6
limit trains 256
= an event too many
+ four segments
script
@ 200000 step 1
take 1 0 1
- 6
limit events 200000
= a wrong event after as many as there may be
+ four segments
script
@ 200000 step 1
step 0
- 4
script 200012 column 6
= a delivery of nothing after as many events as there may be
+ four segments
script
@ 200000 step 1
deliver 1
- 0
done 200001
= a delivery whose second message is too many
+ four segments
script
train 7 60000 2000 20000 eq
entry 7 1+
entry 7 1+
@ 199996 step 1
deliver 1
- 6
entry 1 7 1
limit events 200000
= as many events as a check may have
+ four segments
script
@ 200000 step 1
! 0 0 2000000 0
* 0
+ four segments
script
@ 200000 step 1
done 200000
= a check of an event too many
+ four segments
script
@ 200000 step 1
deliver 1
! 0 0 2000000 0
* 6
+ four segments
script
@ 200000 step 1
limit events 200000";

/// How many rows stand in them.
pub const ROWS: u32 = 296;

/// The parts. What calls this does not carry their text through its proof.
pub fn parts() -> &'static [(&'static str, &'static str)] {
    PARTS
}

/// All tables.
pub fn tables() -> &'static str {
    TABLES
}
