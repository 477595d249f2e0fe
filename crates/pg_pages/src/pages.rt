//! The pages of the codes: the parts of docs/ that are headed by codes, as plain text.
//!
//! `tests/code_pages --write` makes this file, and without that word compares it with docs/. Each text stands in a function of its own, since
//! a proof that looks into one of them is then spared the others.

/// The page of a code, whose letter may be written small.
pub(crate) fn page_of(code: &str) -> Option<&'static str> {
    match code.as_bytes() {
        [b'A' | b'a', number @ ..] => page_of_a(number),
        [b'C' | b'c', number @ ..] => page_of_c(number),
        [b'F' | b'f', number @ ..] => page_of_f(number),
        [b'P' | b'p', number @ ..] => page_of_p(number),
        [b'T' | b't', number @ ..] => page_of_t(number),
        [b'V' | b'v', number @ ..] => page_of_v(number),
        [b'W' | b'w', number @ ..] => page_of_w(number),
        [b'X' | b'x', number @ ..] => page_of_x(number),
        [b'Y' | b'y', number @ ..] => page_of_y(number),
        _ => None,
    }
}

fn page_of_a(number: &[u8]) -> Option<&'static str> {
    match number {
        b"1" => Some(text_of_a1()),
        b"2" => Some(text_of_a1()),
        b"3" => Some(text_of_a1()),
        b"4" => Some(text_of_a1()),
        b"5" => Some(text_of_a1()),
        _ => None,
    }
}

fn page_of_c(number: &[u8]) -> Option<&'static str> {
    match number {
        b"1" => Some(text_of_c1()),
        b"2" => Some(text_of_c2()),
        b"3" => Some(text_of_c3()),
        b"4" => Some(text_of_c4()),
        b"5" => Some(text_of_c5()),
        b"6" => Some(text_of_c6()),
        b"7" => Some(text_of_c7()),
        b"8" => Some(text_of_c8()),
        b"9" => Some(text_of_c9()),
        b"10" => Some(text_of_c10()),
        b"11" => Some(text_of_c11()),
        _ => None,
    }
}

fn page_of_f(number: &[u8]) -> Option<&'static str> {
    match number {
        b"1" => Some(text_of_f1()),
        b"2" => Some(text_of_f2()),
        b"3" => Some(text_of_f3()),
        b"4" => Some(text_of_f4()),
        b"5" => Some(text_of_f5()),
        b"6" => Some(text_of_f6()),
        b"7" => Some(text_of_f7()),
        b"8" => Some(text_of_f8()),
        b"9" => Some(text_of_f9()),
        _ => None,
    }
}

fn page_of_p(number: &[u8]) -> Option<&'static str> {
    match number {
        b"1" => Some(text_of_p1()),
        b"2" => Some(text_of_p2()),
        b"3" => Some(text_of_p3()),
        b"4" => Some(text_of_p4()),
        b"5" => Some(text_of_p5()),
        b"6" => Some(text_of_p6()),
        _ => None,
    }
}

fn page_of_t(number: &[u8]) -> Option<&'static str> {
    match number {
        b"1" => Some(text_of_t1()),
        b"2" => Some(text_of_t2()),
        b"3" => Some(text_of_t3()),
        b"4" => Some(text_of_t4()),
        b"5" => Some(text_of_t5()),
        b"6" => Some(text_of_t6()),
        b"7" => Some(text_of_t7()),
        b"8" => Some(text_of_t8()),
        b"9" => Some(text_of_t9()),
        _ => None,
    }
}

fn page_of_v(number: &[u8]) -> Option<&'static str> {
    match number {
        b"1" => Some(text_of_v1()),
        b"2" => Some(text_of_v2()),
        b"3" => Some(text_of_v3()),
        b"4" => Some(text_of_v4()),
        _ => None,
    }
}

fn page_of_w(number: &[u8]) -> Option<&'static str> {
    match number {
        b"1" => Some(text_of_w1()),
        _ => None,
    }
}

fn page_of_x(number: &[u8]) -> Option<&'static str> {
    match number {
        b"1" => Some(text_of_x1()),
        _ => None,
    }
}

fn page_of_y(number: &[u8]) -> Option<&'static str> {
    match number {
        b"1" => Some(text_of_y1()),
        b"2" => Some(text_of_y2()),
        b"3" => Some(text_of_y3()),
        b"4" => Some(text_of_y4()),
        _ => None,
    }
}

fn text_of_a1() -> &'static str {
    r#"A1 A2 A3 A4 A5 operator not admitted

An operator that a `table` item or the declaration of a text would add is
refused for one of these reasons, the first that holds:

Reason `A1`
    When: its symbol has over 16 characters
Reason `A2`
    When: it is reserved
Reason `A3`
    When: a prefix operator with this symbol is there already, and this is one
    too
Reason `A4`
    When: an infix or postfix operator with this symbol is there already, and
    this is infix or postfix too
Reason `A5`
    When: there are `max` operators already

In a grammar file that is the fault F9; in a text the parse answers an error
that says `operator "+" not admitted: A3`.
"#
}

fn text_of_c1() -> &'static str {
    r#"C1 left recursion

A rule comes to itself before anything is consumed, directly or through other
rules. Parsec runs it again at the same place, and so on without an end.

    start a;
    a = a;

pgw check answers:

    a:1: C1 left recursion

pgw probe answers to the text x:

    P5 steps used up

Mostly the rule says that something is repeated, as this one does, taken from a
grammar for another kind of parser:

    start sum;
    sum = choice(seq(sum, string("+"), number), number);
    number = build(num, satisfy(digit));

pgw check answers:

    sum:1: C1 left recursion
    sum:1: C4 alternatives 1 and 2 meet at class U+0030-U+0039 and class U+0030-U+0039

Say so with `chainl1`, which has the trees lean to the left as well:

    start sum;
    sum = chainl1(list, number, string("+"));
    number = build(num, satisfy(digit));

pgw check answers:

    accepted

pgw probe answers to the text 1+2:

    consumed ok
    place 3
    [{"kids":[{"kids":["1"],"node":"num"},"+",{"kids":["2"],"node":"num"}],"node":"list"}]

Also a part that can be empty hides a left recursion, as `many(string(" "))`
does here before `a`:

    start a;
    a = choice(seq(many(string(" ")), a, string("x")), string("y"));

pgw check answers:

    a:1: C1 left recursion
    a:1: C4 alternatives 1 and 2 meet at class U+0079 and class U+0079
    a:3: C6 repetition meets its follow set at class U+0020 and class U+0020
"#
}

fn text_of_c2() -> &'static str {
    r#"C2 repeated part can be empty

A round of a repetition, or a separator of a chain with its operand, can
succeed without a character. Parsec's `many` stops the whole program then.

    start a;
    a = many(seq());

pgw check answers:

    a:1: C2 repeated part can be empty

pgw probe answers to the text x:

    P6 empty repetition

Repeat what consumes, and let the repetition say that there may be nothing: in
place of `many(option(v))` or `many(many(v))`

    start a;
    a = many(satisfy(digit));

pgw check answers:

    accepted

pgw probe answers to the text x:

    empty ok
    place 0
    []

Spaces that may come after each item belong to the item, as in
`many(seq(item, spaces))`, and not to a round of their own.
"#
}

fn text_of_c3() -> &'static str {
    r#"C3 alternative can be empty and is not last

What can be empty never fails without having consumed, so the alternatives
after it are never tried.

    start a;
    a = choice(seq(), string("x"));

pgw check answers:

    a:1: C3 alternative 1 can be empty and is not last

pgw probe answers to the text x:

    empty ok
    place 0
    []

(In the reading of the report of 2001, `pgw probe --report`, a later
alternative is taken if it consumes.) Put the alternative that can be empty
last:

    start a;
    a = choice(string("x"), seq());

pgw check answers:

    accepted

pgw probe answers to the text x:

    consumed ok
    place 1
    ["x"]
"#
}

fn text_of_c4() -> &'static str {
    r#"C4 alternatives meet

Two alternatives can begin in the same way. Parsec takes the first that
consumes a character, and stays with it even where only the second one goes on.

    start a;
    a = choice(string("xy"), string("xz"));

pgw check answers:

    a:1: C4 alternatives 1 and 2 meet at class U+0078 and class U+0078

pgw probe answers to the text xz:

    consumed error
    "t" (line 1, column 1):
    unexpected "z"
    expecting "xy"

Take what they share out of the choice:

    start a;
    a = text(seq(string("x"), choice(string("y"), string("z"))));

pgw check answers:

    accepted

pgw probe answers to the text xz:

    consumed ok
    place 2
    ["xz"]

Two strings with a common beginning

Or have each string looked at as a whole, with `try`. Both need it: a string
without one is told by its first character, which the other one also begins
with.

    start a;
    a = choice(try(string("xy")), string("xz"));

pgw check answers:

    a:1: C4 alternatives 1 and 2 meet at key "xy" and class U+0078

    start a;
    a = choice(try(string("xy")), try(string("xz")));

pgw check answers:

    accepted

pgw probe answers to the text xz:

    consumed ok
    place 2
    ["xz"]

Around more than a string `try` changes what Parsec does, and not by what the
check tells alternatives apart: that stays what can begin them, so what they
share has to be taken out.

    start a;
    a = choice(try(string("x"), string("y")), string("xz"));

pgw check answers:

    a:1: C4 alternatives 1 and 2 meet at class U+0078 and class U+0078

pgw probe answers to the text xz:

    consumed ok
    place 2
    ["xz"]

Where the check accepts, such a `try` isn't needed, and does no harm: the check
finds the same without it, and what it gives back is never read again (nothing
is read twice). Here it gives the second `x` back, and the answer is the one
without a `try`:

    start a;
    a = seq(many(try(string("x"), string("y"))), string("z"));

pgw check answers:

    accepted

pgw parse answers to the text xyxz:

    "t" (line 1, column 4):
    unexpected "z"
    expecting "y"

    start a;
    a = seq(many(seq(string("x"), string("y"))), string("z"));

pgw check answers:

    accepted

pgw parse answers to the text xyxz:

    "t" (line 1, column 4):
    unexpected "z"
    expecting "y"

Where one string begins the other, say what may not follow the shorter one:

    start a;
    a = choice(try(string("<"), notFollowedBy("=")), try(string("<=")));

pgw check answers:

    accepted

pgw probe answers to the text <=:

    consumed ok
    place 2
    ["<="]

Keywords

A keyword meets the words that it is one of:

    start a;
    a = choice(try(string("let"), notFollowedBy(alphaNum)), word(name));
    word name head letter rest alphaNum;

pgw check answers:

    a:1: C4 alternatives 1 and 2 meet at key "let" and word name

Reserve it, and it is told from all other words:

    start a;
    a = choice(try(string("let"), notFollowedBy(alphaNum)), word(name));
    word name head letter rest alphaNum reserved "let";

pgw check answers:

    accepted

pgw probe answers to the text lets:

    consumed ok
    place 4
    ["lets"]

The `notFollowedBy` has to exclude each character of the word's rest. Without
it, or where a character isn't in it, the finding stays. Here it is the `_`,
for `let_` is a name and begins as the keyword does:

    start a;
    a = choice(try(string("let"), notFollowedBy(alphaNum)), word(name));
    word name head letter rest alphaNum | "_" reserved "let";

pgw check answers:

    a:1: C4 alternatives 1 and 2 meet at key "let" and word name

Make it a class and use it in both:

    class inside = alphaNum | "_";
    word name head letter rest inside reserved "let";
    start a;
    a = choice(try(string("let"), notFollowedBy(inside)), word(name));

pgw check answers:

    accepted

pgw parse answers to texts:

    let gives ["let"]
    let_ gives ["let_"]

Only `try(string("let"))` and `try(string("let"), notFollowedBy(class))` are
keys, also with the two in a `seq` in the `try`. With anything else in the
`try`, be it `skip`, `text`, `label`, blanks, or a rule in place of the string,
it begins with its first character alone:

    class inside = alphaNum | "_";
    word name head letter rest inside reserved "let";
    start a;
    a = choice(seq(let, word(name)), word(name));
    let = try(skip(string("let")), notFollowedBy(inside), blanks);
    blanks = skip(many(satisfy(" ")));

pgw check answers:

    a:1: C4 alternatives 1 and 2 meet at class U+006C and word name

Put them around the `try` or after it:

    class inside = alphaNum | "_";
    word name head letter rest inside reserved "let";
    start a;
    a = choice(seq(let, word(name)), word(name));
    let = skip(seq(try(string("let"), notFollowedBy(inside)), blanks));
    blanks = skip(many(satisfy(" ")));

pgw check answers:

    accepted

pgw parse answers to texts:

    let x gives ["x"]

An assignment beside an expression

`x = e` is a statement, `e` is one too, and both begin with a name:

    word name head letter rest alphaNum;
    start statement;
    statement = choice(assignment, sum);
    assignment = build(call, seq(word(name), skip(string("=")), sum));
    sum = chainl1(list, atom, skip(string("+")));
    atom = choice(word(name), between(string("("), string(")"), sum));

pgw check answers:

    statement:1: C4 alternatives 1 and 2 meet at word name and word name

Read the expression first, and then a `=` that may be there. A chain does so,
and makes a node only where there is one:

    word name head letter rest alphaNum;
    start statement;
    statement = chainr1(call, sum, skip(string("=")));
    sum = chainl1(list, atom, skip(string("+")));
    atom = choice(word(name), between(string("("), string(")"), sum));

pgw check answers:

    accepted

pgw parse answers to texts:

    x=a+b gives [{"kids":["x",{"kids":["a","b"],"node":"list"}],"node":"call"}]
    a+b gives [{"kids":["a","b"],"node":"list"}]
    a+b=c gives [{"kids":[{"kids":["a","b"],"node":"list"},"c"],"node":"call"}]

The last text is parsed too: that a name stands on the left is for the one who
reads the tree to ask. Where the grammar has to ask for it, let an assignment
begin with a keyword.

Nodes that begin alike

`x` is a name and `f(x)` a call. Both begin with a word, and a `build` can't be
put around what was read before it:

    word name head letter rest letter;
    start term;
    term = choice(build(call, seq(word(name), arguments)), build(name, word(name)));
    arguments = between(string("("), string(")"), sepBy(term, string(",")));

pgw check answers:

    term:1: C4 alternatives 1 and 2 meet at word name and word name

Make one node of both, with a part that may be missing:

    word name head letter rest letter;
    start term;
    term = build(name, seq(word(name), option(arguments)));
    arguments = build(list, between(string("("), string(")"), sepBy(term, string(","))));

pgw check answers:

    accepted

pgw parse answers to texts:

    x gives [{"kids":["x"],"node":"name"}]
    f(x) gives [{"kids":["f",{"kids":[{"kids":["x"],"node":"name"}],"node":"list"}],"node":"name"}]

Or take a chain: it makes a node around its first operand where there is a
second one, and only there. Its separator may be empty, as in `f x`, where a
function is written before its argument:

    word name head letter rest letter;
    start term;
    term = chainl1(call, atom, seq());
    atom = seq(choice(word(name), between(seq(string("("), blanks), string(")"), term)), blanks);
    blanks = skip(many(satisfy(" ")));

pgw check answers:

    accepted

pgw parse answers to texts:

    f gives ["f"]
    f (g x) y gives [{"kids":[{"kids":["f",{"kids":["g","x"],"node":"call"}],"node":"call"},"y"],"node":"call"}]
"#
}

fn text_of_c5() -> &'static str {
    r#"C5 alternative meets the follow set

The last alternative can be empty, and an earlier one can begin as what comes
after the choice does. Parsec takes the alternative where the text wants what
comes after.

    start a;
    a = seq(choice(string("x"), seq()), string("x"));

pgw check answers:

    a:2: C5 alternative 1 meets the follow set at class U+0078 and class U+0078

pgw probe answers to the text x:

    consumed error
    "t" (line 1, column 2):
    unexpected end of input
    expecting "x"

Put what may be left out after what has to be there:

    start a;
    a = seq(string("x"), option(string("x")));

pgw check answers:

    accepted

pgw probe answers to the text x:

    consumed ok
    place 1
    ["x"]

`eof` can be empty, so `choice(string("\n"), eof)` is of this kind too: see
comments and lines.

An else of the nearest if

Where statements nest, several may be open at an `else`, and the grammar lets
it belong to each of them:

    class inside = alphaNum;
    word name head letter rest inside reserved "if" "else";
    start statement;
    statement = choice(conditional, seq(word(name), blanks));
    conditional = build(call, seq(if, word(name), blanks, statement, option(seq(else, statement))));
    if = skip(seq(try(string("if"), notFollowedBy(inside)), blanks));
    else = skip(seq(try(string("else"), notFollowedBy(inside)), blanks));
    blanks = skip(many(satisfy(" ")));

pgw check answers:

    conditional:7: C5 alternative 1 meets the follow set at key "else" and key "else"

Parsec takes the `else` where it first can, and so gives it to the nearest
`if`. That is what you want, but by this grammar a text has two trees, and none
is accepted by which one has. A grammar that gives an `else` to the nearest
`if` alone has to tell statements that end in an open `if` from others, and
both begin with the same `if` (C4). So this language has no cure here. The
nearest one that has closes what stands between `if` and `else`, as Go, Rust
and Swift do:

    class inside = alphaNum;
    word name head letter rest inside reserved "if" "else";
    start statement;
    statement = choice(conditional, block, seq(word(name), blanks));
    conditional = build(call, seq(if, word(name), blanks, block, option(seq(else, choice(conditional, block)))));
    block = build(list, between(open, close, many(statement)));
    if = skip(seq(try(string("if"), notFollowedBy(inside)), blanks));
    else = skip(seq(try(string("else"), notFollowedBy(inside)), blanks));
    open = seq(string("{"), blanks);
    close = seq(string("}"), blanks);
    blanks = skip(many(satisfy(" ")));

pgw check answers:

    accepted

pgw parse answers to texts:

    if a { if b { c } } else { d } gives [{"kids":["a",{"kids":[{"kids":["b",{"kids":["c"],"node":"list"}],"node":"call"}],"node":"list"},{"kids":["d"],"node":"list"}],"node":"call"}]
    if a { b } else if c { d } gives [{"kids":["a",{"kids":["b"],"node":"list"},{"kids":["c",{"kids":["d"],"node":"list"}],"node":"call"}],"node":"call"}]

An `else` that always has to be there, or a word such as `end` after it, does
as well.
"#
}

fn text_of_c6() -> &'static str {
    r##"C6 repetition meets its follow set

A round, or a separator of a chain with its operand, can begin as what comes
after the repetition does. Parsec goes on with rounds as long as they fit, and
then lacks what comes after.

    start a;
    a = seq(many(string("x")), string("x"));

pgw check answers:

    a:2: C6 repetition meets its follow set at class U+0078 and class U+0078

pgw probe answers to the text x:

    consumed error
    "t" (line 1, column 2):
    unexpected end of input
    expecting "x"

Put the part that has to be there first:

    start a;
    a = seq(string("x"), many(string("x")));

pgw check answers:

    accepted

pgw probe answers to the text x:

    consumed ok
    place 1
    ["x"]

A list with a comma that may be at its end,
`seq(sepBy(item, comma), option(comma))`, is a usual case: each item ends with
a comma in `endBy(item, comma)`.

Take all that you can

A number where another number may come next, or a run of letters after a run of
letters: nothing in the text tells where the first one ends. You mean that it
takes all that it can.

    start parts;
    parts = many(choice(number, name));
    number = text(many1(satisfy(digit)));
    name = text(many1(satisfy("a".."z")));

pgw check answers:

    number:4: C6 repetition meets its follow set at class U+0030-U+0039 and class U+0030-U+0039
    name:4: C6 repetition meets its follow set at class U+0061-U+007A and class U+0061-U+007A

A `word` takes all that it can by its definition: one character of its head,
and then every character of its rest that is there. It is good for all such
runs, not for names alone.

    word number head digit rest digit;
    word name head "a".."z" rest "a".."z";
    start parts;
    parts = many(choice(word(number), word(name)));

pgw check answers:

    accepted

pgw parse answers to texts:

    img012b gives ["img","012","b"]

Until the next quote

What stands between quotes can't have rounds that take the quote which ends it:

    start quoted;
    quoted = between(string("\""), string("\""), text(many(satisfy(not "\n"))));

pgw check answers:

    quoted:5: C6 repetition meets its follow set at class U+0000-U+0009,U+000B-U+10FFFF and class U+0022

Leave the quote out of what a round takes. Where quotes are wanted in the text,
they need a mark before them, here a backslash, which is left out as well:

    start quoted;
    quoted = between(string("\""), string("\""), text(many(choice(satisfy(not "\"\\\n"), seq(string("\\"), satisfy(not "\n"))))));

pgw check answers:

    accepted

pgw parse answers to texts:

    "say \"hi\"." gives ["say \\\"hi\\\"."]

Until a text of several characters

A comment from `<!--` to `-->` can't leave out every `-`:

    start comment;
    comment = between(string("<!--"), string("-->"), text(many(satisfy(not ""))));

pgw check answers:

    comment:5: C6 repetition meets its follow set at class U+0000-U+10FFFF and class U+002D

Take a `-` only where none comes next, and the end as a whole, with `try`. Then
`--` stands nowhere within, as XML has it:

    start comment;
    comment = between(string("<!--"), try(string("-->")), text(many(choice(satisfy(not "-"), try(string("-"), notFollowedBy("-"))))));

pgw check answers:

    accepted

pgw parse answers to texts:

    <!-- a-b --> gives [" a-b "]
    <!-- a--b --> gives no parse

For an end of two characters nothing is lost so:

    start comment;
    comment = between(string("/*"), try(string("*/")), text(many(choice(satisfy(not "*"), try(string("*"), notFollowedBy("/"))))));

pgw check answers:

    accepted

pgw parse answers to texts:

    /* a * b **/ gives [" a * b *"]

For a longer one write a rule for each character of it that may have been read,
each of which says where every character leads. The end is part of what is read
then, so the comment is skipped, or has its end in its leaf:

    start page;
    page = many(choice(comment, satisfy(not "<")));
    comment = skip(seq(string("<!--"), inside));
    inside = choice(seq(satisfy(not "-"), inside), seq(string("-"), one));
    one = choice(seq(satisfy(not "-"), inside), seq(string("-"), two));
    two = choice(string(">"), seq(string("-"), two), seq(satisfy(not "->"), inside));

pgw check answers:

    accepted

pgw parse answers to texts:

    a<!-- b -- c --->d gives ["a","d"]

A comment to the end of the line, or of the text

A comment that ends with a line feed or with the text has two findings where
something else may come after it. `eof` takes nothing, so a blank may be the
comment's or one that comes after it (C6), and so may the line feed (C5):

    word name head letter rest letter;
    start file;
    file = seq(blanks, many(seq(word(name), blanks)));
    blanks = skip(many(choice(satisfy(" \n"), comment)));
    comment = seq(string("#"), many(satisfy(not "\n")), choice(string("\n"), eof));

pgw check answers:

    comment:3: C6 repetition meets its follow set at class U+0000-U+0009,U+000B-U+10FFFF and class U+000A,U+0020
    comment:5: C5 alternative 1 meets the follow set at class U+000A and class U+000A,U+0020

A comment is a word that begins with its mark and takes all but line feeds. The
line feed after it is a blank like others, and where the text ends there is
none.

    word name head letter rest letter;
    word comment head "#" rest not "\n";
    start file;
    file = seq(blanks, many(seq(word(name), blanks)));
    blanks = skip(many(choice(satisfy(" \n"), word(comment))));

pgw check answers:

    accepted

pgw parse answers to the text b:

    ["a"]

A comment mark that begins as an operator does

`--` begins a comment, and `-` is an operator:

    word name head letter rest alphaNum;
    start file;
    file = seq(blanks, chainl1(call, atom, minus));
    atom = seq(word(name), blanks);
    minus = skip(seq(string("-"), blanks));
    blanks = skip(many(choice(satisfy(" \n"), comment)));
    comment = seq(string("--"), many(satisfy(not "\n")), string("\n"));

pgw check answers:

    blanks:2: C6 repetition meets its follow set at class U+002D and class U+002D

Have each of them looked at as a whole: the mark with `try`, the operator with
what may not come after it. The rest of the line is a word, which takes all
that it can, so that the file may end with it; a comment with nothing behind
its mark has its line feed:

    word name head letter rest alphaNum;
    word line head not "\n" rest not "\n";
    start file;
    file = seq(blanks, chainl1(call, atom, minus));
    atom = seq(word(name), blanks);
    minus = skip(seq(try(string("-"), notFollowedBy("-")), blanks));
    blanks = skip(many(choice(satisfy(" \n"), comment)));
    comment = seq(try(string("--")), choice(word(line), string("\n")));

pgw check answers:

    accepted

pgw parse answers to texts (⏎ is a line feed):

    a - b -- c⏎ - d -- e gives [{"kids":[{"kids":["a","b"],"node":"call"},"d"],"node":"call"}]
    a --⏎- b gives [{"kids":["a","b"],"node":"call"}]

Beside the operators of an `expr` there is no such cure, since the check takes
a mark that begins with one of their characters for an operator that a table
could hold. Let the mark begin with a character that no operator has, as `#`
does.

Where lines count

A line ends before its line feed, and the file has line feeds between lines.
But most files end with a line feed (⏎ here), and then a line that can be empty
comes after it:

    word name head letter rest letter;
    word comment head "#" rest not "\n";
    start file;
    file = sepBy1(line, string("\n"));
    line = build(list, seq(option(word(name)), option(word(comment))));

pgw check answers:

    accepted

pgw parse answers to texts (⏎ is a line feed):

    ab#c gives [{"kids":["ab","#c"],"node":"list"}]
    ab#c⏎ gives [{"kids":["ab","#c"],"node":"list"},{"kids":[],"node":"list"}]

Make a line of something, and have it optional before the first line feed and
after each. The last line feed may then be there or not, and empty lines have
no tree:

    word name head letter rest letter;
    word comment head "#" rest not "\n";
    start file;
    file = seq(option(line), many(seq(skip(string("\n")), option(line))));
    line = build(list, choice(seq(word(name), option(word(comment))), word(comment)));

pgw check answers:

    accepted

pgw parse answers to texts (⏎ is a line feed):

    ab#c gives [{"kids":["ab","#c"],"node":"list"}]
    ab⏎⏎#c⏎ gives [{"kids":["ab"],"node":"list"},{"kids":["#c"],"node":"list"}]

If the last line always has its line feed, write `endBy(line, string("\n"))`;
there a line may be empty.

A quoted text in which two quotes mean one

After a quote the text may go on with a second one, or be over:

    start cell;
    cell = between(quote, quote, text(many(choice(satisfy(not "\""), string("\"\"")))));
    quote = string("\"");

pgw check answers:

    cell:5: C6 repetition meets its follow set at class U+0022 and class U+0022

Take it as pieces next to one another, each in quotes of its own. Of a piece
after the first its first quote is kept, so that two quotes give one:

    start cell;
    cell = build(join, seq(skip(quote), rest, many(seq(quote, rest))));
    rest = seq(many(satisfy(not "\"")), skip(quote));
    quote = string("\"");

pgw check answers:

    accepted

pgw parse answers to texts:

    "say ""hi""" gives ["say \"hi\""]
    "" gives [""]

Or tell the two quotes from the last one, with `try` and what may not follow.
The leaf has both quotes then:

    start cell;
    cell = between(string("\""), close, text(many(choice(satisfy(not "\""), try(string("\"\""))))));
    close = try(string("\""), notFollowedBy("\""));

pgw check answers:

    accepted

pgw parse answers to texts:

    "a""b" gives ["a\"\"b"]

Blanks in one place only

Take blanks after each token, and none before. A token is what blanks may come
after: an item, a comma, a parenthesis.

Blanks on both sides of an item meet where nothing is between two items, for
they are one run then, and nothing tells whose they are:

    start list;
    list = many(item);
    item = seq(blanks, satisfy(letter), blanks);
    blanks = skip(many(satisfy(" ")));

pgw check answers:

    blanks:2: C6 repetition meets its follow set at class U+0020 and class U+0020

So each item takes the blanks after it. Those at the very beginning are taken
once, by the start rule:

    start list;
    list = seq(blanks, many(item));
    item = seq(satisfy(letter), blanks);
    blanks = skip(many(satisfy(" ")));

pgw check answers:

    accepted

pgw parse answers to the text :

    ["a","b"]

Blanks on both sides may also be accepted, and still not do what you want. In a
list with commas and brackets there is always something between two items, but
no item in a list that is empty, and so no place for its blank:

    start list;
    list = between(string("["), string("]"), sepBy(item, string(",")));
    item = seq(blanks, satisfy(letter), blanks);
    blanks = skip(many(satisfy(" ")));

pgw check answers:

    accepted

pgw parse answers to texts:

    [ a , b ] gives ["a","b"]
    [ ] gives no parse

After each token there is:

    start file;
    file = seq(blanks, list);
    list = between(open, close, sepBy(item, comma));
    item = seq(satisfy(letter), blanks);
    open = seq(string("["), blanks);
    close = seq(string("]"), blanks);
    comma = seq(string(","), blanks);
    blanks = skip(many(satisfy(" ")));

pgw check answers:

    accepted

pgw parse answers to texts:

    [ a , b ] gives ["a","b"]
    [ ] gives []

Blanks before the rest of the line

A value that goes to the end of the line takes all characters, also the blanks
before it:

    start line;
    line = seq(key, skip(string(":")), blanks, value);
    key = text(many1(satisfy(letter)));
    value = text(many(satisfy(not "\n")));
    blanks = skip(many(satisfy(" ")));

pgw check answers:

    blanks:2: C6 repetition meets its follow set at class U+0020 and class U+0000-U+0009,U+000B-U+10FFFF

Let it begin with a character that is no blank, or be empty:

    start line;
    line = seq(key, skip(string(":")), blanks, value);
    key = text(many1(satisfy(letter)));
    value = text(option(seq(satisfy(not " \n"), many(satisfy(not "\n")))));
    blanks = skip(many(satisfy(" ")));

pgw check answers:

    accepted

pgw parse answers to texts:

    name:  John Doe gives ["name","John Doe"]
    name: gives ["name",""]

Blanks at the end of such a value stay in its leaf, for at a blank nothing
tells yet whether more than blanks comes. They can be cut off if no two blanks
are next to one another in the value, it isn't empty, and a line feed (⏎) ends
it:

    start line;
    line = seq(key, skip(string(":")), blanks, value, end);
    key = text(many1(satisfy(letter)));
    value = text(seq(satisfy(not " \n"), many(choice(satisfy(not " \n"), try(string(" "), notFollowedBy(" \n"))))));
    end = skip(seq(many(try(string("  "))), choice(try(string(" \n")), string("\n"))));
    blanks = skip(many(satisfy(" ")));

pgw check answers:

    accepted

pgw parse answers to texts (⏎ is a line feed):

    name:  John Doe   ⏎ gives ["name","John Doe"]
    name:  John  Doe⏎ gives no parse

Else take the value as a list of words, each with its blanks after it.
"##
}

fn text_of_c7() -> &'static str {
    r#"C7 operand can be empty

The term of an expression can succeed on nothing. An operator is then read
where it has no operand, and its tree doesn't show on which side one is
missing.

    operators "+" gap " ";
    table infixl 6 "+";
    start a;
    a = expr(node, node, node, many(satisfy("x")));

pgw check answers:

    a:1: C7 operand can be empty

pgw probe answers to the text x+:

    consumed ok
    place 2
    [{"kids":["x"],"node":"+"}]

pgw probe answers to the text +x:

    consumed ok
    place 2
    [{"kids":["x"],"node":"+"}]

A term takes at least one character:

    operators "+" gap " ";
    table infixl 6 "+";
    start a;
    a = expr(node, node, node, many1(satisfy("x")));

pgw check answers:

    accepted

pgw probe answers to the text x+xx:

    consumed ok
    place 4
    [{"kids":["x","x","x"],"node":"+"}]

C7 operand meets operators

A term can begin with a character of operators. Where an operator comes before
it the parser reads as much of it as is one, and what a text declares decides
how the same characters are read.

    operators "+" gap " ";
    table prefix 8 "+";
    start a;
    a = expr(node, node, node, satisfy("+"));

pgw check answers:

    a:1: C7 operand meets operators at class U+002B

pgw probe answers to the text +:

    consumed error
    "t" (line 1, column 2):
    unexpected end of input

The `+` is a term, but operators are tried first. A sign belongs to the table,
and terms begin otherwise:

    operators "+-" gap " ";
    table prefix 8 "-";
    start a;
    a = expr(node, node, node, satisfy(digit));

pgw check answers:

    accepted

pgw probe answers to the text -1:

    consumed ok
    place 2
    [{"kids":["1"],"node":"-"}]
"#
}

fn text_of_c8() -> &'static str {
    r#"C8 follow set meets operators

What follows an expression can begin with a character of operators. Once a text
has declared such an operator, or where the table has one, the expression takes
it and wants another term.

    operators "+" gap " ";
    table infixl 6 "+";
    start a;
    a = seq(expr(node, node, node, satisfy("x")), string("+"));

pgw check answers:

    a:2: C8 follow set meets operators at class U+002B

pgw probe answers to the text x+:

    consumed error
    "t" (line 1, column 3):
    unexpected end of input

End the expression with something that no operator can be:

    operators "+" gap " ";
    table infixl 6 "+";
    start a;
    a = seq(expr(node, node, node, satisfy("x")), string(";"));

pgw check answers:

    accepted

pgw probe answers to the text x+x;:

    consumed ok
    place 4
    [{"kids":["x","x"],"node":"+"},";"]
"#
}

fn text_of_c9() -> &'static str {
    r#"C9 gap meets

An operator, and a declaration after its keyword, its digit and its symbol,
take all characters of the gap that are there. What comes next can begin with
one of them, be it an operator, a term or what follows: then the gap has taken
it.

    operators "+" gap "_";
    start a;
    a = seq(declare(alphaNum), string("_"));

pgw check answers:

    a:2: C9 gap meets class U+005F

pgw probe answers to the text infixl_6_+_:

    consumed error
    "t" (line 1, column 12):
    unexpected end of input
    expecting "_"

Put something between that is no character of the gap:

    operators "+" gap "_";
    start a;
    a = seq(declare(alphaNum), string(";"));

pgw check answers:

    accepted

pgw probe answers to the text infixl_6_+_;:

    consumed ok
    place 12
    [{"kids":["infixl","6","+"],"node":"declare"},";"]

In an expression it may be a term that loses its first character:

    operators "+" gap "x";
    table prefix 8 "+";
    start a;
    a = expr(node, node, node, satisfy("x"));

pgw check answers:

    a:1: C9 gap meets class U+0078

pgw probe answers to the text +x:

    consumed error
    "t" (line 1, column 3):
    unexpected end of input

A gap is best made of blanks alone, which nothing else begins with:

    operators "+" gap " ";
    table prefix 8 "+";
    start a;
    a = expr(node, node, node, satisfy("x"));

pgw check answers:

    accepted

pgw probe answers to the text +x:

    consumed ok
    place 2
    [{"kids":["x"],"node":"+"}]
"#
}

fn text_of_c10() -> &'static str {
    r#"C10 isn't used: no line that pgw prints begins with it.
"#
}

fn text_of_c11() -> &'static str {
    r#"C11 step cost over 4294967296

A parse may take too many steps: more than 4,294,967,296 for a character of the
text, or for its end. This is judged where no rule heads itself (C1), and said
of the body of the start rule, whichever rule it is that costs so much.

The step cost is a bound that is computed from the grammar alone. What a rule
may run before anything is consumed counts again for each place that names the
rule. So of rules that can succeed on nothing, and name one another twice, each
costs twice as much as the one below:

    start a;
    a = seq(e25, string("x"));
    e0 = seq(); e1 = seq(e0, e0); e2 = seq(e1, e1); e3 = seq(e2, e2);
    e4 = seq(e3, e3); e5 = seq(e4, e4); e6 = seq(e5, e5); e7 = seq(e6, e6);
    e8 = seq(e7, e7); e9 = seq(e8, e8); e10 = seq(e9, e9); e11 = seq(e10, e10);
    e12 = seq(e11, e11); e13 = seq(e12, e12); e14 = seq(e13, e13); e15 = seq(e14, e14);
    e16 = seq(e15, e15); e17 = seq(e16, e16); e18 = seq(e17, e17); e19 = seq(e18, e18);
    e20 = seq(e19, e19); e21 = seq(e20, e20); e22 = seq(e21, e21); e23 = seq(e22, e22);
    e24 = seq(e23, e23); e25 = seq(e24, e24);

pgw check answers:

    a:1: C11 step cost over 4294967296

A parse of `x` would enter each of these rules twice as often as the one above
it, and take some 130 million steps before it came to the character.

pgw probe answers to the text x:

    P5 steps used up

Name a rule that can succeed on nothing once, where once is enough, or repeat
one that consumes:

    start a;
    a = seq(many(e), string("x"));
    e = string("e");

pgw check answers:

    accepted

pgw probe answers to the text x:

    consumed ok
    place 1
    ["x"]

The step cost is the number of levels times the size of the greatest rule, and
at least what the rows of an expression take, as the page of `pg_predict_costs`
says. A parse of a text of n characters takes at most so many steps, times n +
1, and mostly far fewer.
"#
}

fn text_of_f1() -> &'static str {
    r#"F1 not UTF-8

The file isn't UTF-8. The place is that of the first byte that is wrong, also
where the file ends inside a character.
"#
}

fn text_of_f2() -> &'static str {
    r#"F2 bad token

A character begins no token; a `.` stands alone; or a literal isn't closed on
its line (inside a literal `\"` and `\\` protect their second character, no
other escape does). The place is the token's.

At `'`
    Mostly means: literals have double quotes
    Write: `string("x")`
At `-`
    Mostly means: comments begin with `#`
    Write: `# a comment`
At `"`
    Mostly means: the literal isn't closed on its line
    Write: `\n` for a line feed in it
At `-`, `.` or `'` in a name, `_` before one
    Mostly means: names have ASCII letters, digits and `_`, and begin with a
    letter
    Write: `my_rule`
At `*` `+` `?`
    Mostly means: repetitions and options are forms
    Write: `many(v)`, `many1(v)`, `option(v)`
At a character that can't be seen
    Mostly means: another program put it there, as a no-break space or a byte
    order mark; `pgw explain` gives its number and its name

Others:

    start a; a = string('x'); gives g:1:21: F2 bad token
    start a; my-rule = eof; gives g:1:12: F2 bad token
    -- a comment gives g:1:1: F2 bad token
    start a; a = string("x; gives g:1:21: F2 bad token
"#
}

fn text_of_f3() -> &'static str {
    r#"F3 unexpected token

The syntax has another token here; a reserved word is written for the name of a
class, word or rule; a precedence is over 9, or a `max` isn't 1 to 64; or the
file ends inside an item. The place is the token's, or the end.

At the beginning of a line the `;` of the item above is mostly missing: the
program reads on until a token can't come next.

    start a;
    a = satisfy(digit)
    b = a;

pgw check answers:

    g:3:1: F3 unexpected token

At a literal
    Mostly means: a literal is written where a value must be
    Write: `string("x")`
At the literal of `build` or a chain
    Mostly means: the builder comes first
    Write: `build(node, "x", v)`
At `|`
    Mostly means: alternatives of values are a choice; `|` is for classes
    Write: `choice(v, w)`
At a value
    Mostly means: the comma before it is missing
    Write: `seq(v, w)`
At a value in `notFollowedBy` or `satisfy`
    Mostly means: a class must be there
    Write: `notFollowedBy("y")`
At `;`
    Mostly means: a parenthesis isn't closed
At `(`
    Mostly means: `eof` has no parentheses, or there is no such form, as
    `char`, `sepEndBy` or, with a slip, `sepby`
    Write: `eof`, `string("x")`, `sepBy(v, s)`
At what a form is of
    Mostly means: its parentheses are missing
    Write: `many(satisfy(digit))`
At the name of a rule, a class or a word, or what follows it
    Mostly means: it is a reserved word
    Write: another name, as `table_`
At what follows the word of an item
    Mostly means: the word is misspelled, and was read as the name of a rule
    Write: `start file;`

Others:

    start a; a = "x"; gives g:1:14: F3 unexpected token
    start a; a = string("x") | string("y"); gives g:1:26: F3 unexpected token
    start a; a = seq(string("x") string("y")); gives g:1:30: F3 unexpected token
    start a; a = seq(string("x"); gives g:1:29: F3 unexpected token
    start a; a = chainl1("sum", eof, eof); gives g:1:22: F3 unexpected token
    start a; a = eof(); gives g:1:17: F3 unexpected token
    start a; a = char("x"); gives g:1:18: F3 unexpected token
    start a; a = sepEndBy(a, a); gives g:1:22: F3 unexpected token
    start a; a = notFollowedBy(string("y")); gives g:1:28: F3 unexpected token
    start a; a = satisfy(string("y")); gives g:1:22: F3 unexpected token
    start a; seq = eof; gives g:1:10: F3 unexpected token
    start a; a = seq(eof, table); table = eof; gives g:1:23: F3 unexpected token
    start a; a = sepby(a, eof); gives g:1:19: F3 unexpected token
    start a; a = many satisfy(digit); gives g:1:19: F3 unexpected token
    strat a; a = eof; gives g:1:7: F3 unexpected token

    start a;
    a = seq(many(table), eof);
    table = satisfy(digit);

pgw explain tells:

    g:2:14: F3 unexpected token
     --> g:2:14
      |
    2 | a = seq(many(table), eof);
      |              ^^^^^
      |
      `table` is a word of grammar files, so it can't be a name; `table_` can

    g:3:7: F3 unexpected token
     --> g:3:7
      |
    3 | table = satisfy(digit);
      |       ^
      |
      `table` is a word of grammar files, so it can't be a name; `table_` can
"#
}

fn text_of_f4() -> &'static str {
    r#"F4 unknown name

There is no such class, predicate, word, rule or builder (a reserved word is
the name of no builder); or there is an `expr`, `declare` or `table` in a file
without an `operators` item. The place is that of the name, or of the word
`expr`, `declare` or `table`.

At a predicate or class: it is written where a value must be. `many(digit)`
asks for a rule `digit`; the value is `satisfy(digit)`.

    start a;
    a = many(digit);

pgw check answers:

    g:2:10: F4 unknown name

At a class that is there
    Mostly means: it is defined below its use
    Write: the class above
At what follows `build(` or `chainl1(`
    Mostly means: a label is written as a builder
    Write: `build(node, "pair", v)`, `chainl1(node, "or", v, s)`
At `expr`
    Mostly means: there is no `operators` item

Others:

    start a; a = satisfy(vowel); class vowel = "aeiou"; gives g:1:22: F4 unknown name
    start a; a = build(pair, eof); gives g:1:20: F4 unknown name
    start a; a = chainl1(or, eof, eof); gives g:1:22: F4 unknown name
    start a; a = expr(node, node, node, eof); gives g:1:14: F4 unknown name
"#
}

fn text_of_f5() -> &'static str {
    r#"F5 name defined twice

A class is named like a predicate or a class above; or there is a second word
or rule of the same name, a second `operators` or a second `start`. The place
is that of the second name, or of the second `operators` or `start`.

Others:

    start a; a = eof; a = eof; gives g:1:19: F5 name defined twice
    class digit = "0".."9"; start a; a = eof; gives g:1:7: F5 name defined twice
"#
}

fn text_of_f6() -> &'static str {
    r#"F6 no start rule

There is no `start` item, or it names no rule. The place is the end of the
file, or the name. A file needs one `start a;`.

Others:

    a = eof; gives g:1:9: F6 no start rule
    start b; a = eof; gives g:1:7: F6 no start rule
"#
}

fn text_of_f7() -> &'static str {
    r#"F7 bad literal

An escape is unknown or wrong; a literal is empty in `string`, after `reserved`
or in a `table` item; an end of a range isn't one character; or a range
descends. The place is the literal's; of a range that descends, the second
one's.

At an end of a range
    Mostly means: it has more than one character
    Write: `"a".."z"`
At a literal
    Mostly means: there is no such escape
    Write: `satisfy(digit)`

Others:

    start a; a = satisfy("ab".."z"); gives g:1:22: F7 bad literal
    start a; a = string("\d"); gives g:1:21: F7 bad literal
"#
}

fn text_of_f8() -> &'static str {
    r#"F8 limit passed

Something passes its limit. The place is that of the name or literal, or of the
parenthesis; for classes, words, rules and forms that of the `;` that ends the
item; for the file that of the first character that ends after the limit.
"#
}

fn text_of_f9() -> &'static str {
    r#"F9 operator not admitted

A `table` item is refused. In parentheses stands the reason, `A1` to `A5`. The
place is that of its literal.

Others:

    operators "+" gap " "; table prefix 8 "+"; table prefix 9 "+"; start a; a = eof; gives g:1:59: F9 operator not admitted (A3)
"#
}

fn text_of_p1() -> &'static str {
    r#"P1 not UTF-8

The text isn't UTF-8. This is said before P2 where both hold. For people,
`parse --tree` and `probe --trace` print a second line,
`T:LINE:COLUMN: byte N isn't part of a UTF-8 character`, of the first such
byte, counted from 0. Status 2.
"#
}

fn text_of_p2() -> &'static str {
    r#"P2 text too long

The text has over 1,048,576 characters. Status 2.
"#
}

fn text_of_p3() -> &'static str {
    r#"P3 isn't used: no line that pgw prints begins with it.
"#
}

fn text_of_p4() -> &'static str {
    r#"P4 isn't used: no line that pgw prints begins with it.
"#
}

fn text_of_p5() -> &'static str {
    r#"P5 steps used up

`pgw probe` came to no answer in the steps that it was given. Either they are
too few, or the parse has no end, as where a rule comes to itself before it has
consumed anything (C1). Try again with more, as `--steps 1000000`; a grammar
that is accepted takes at most its step cost for each character of the text,
and for its end. Status 1.

    start a;
    a = a;

pgw probe answers to the text x:

    P5 steps used up
"#
}

fn text_of_p6() -> &'static str {
    r#"P6 empty repetition

A round of a repetition was ok and took nothing, so that it would never end.
Parsec's `many` stops the whole program then. C2 finds this in the grammar.
Status 1.

    start a;
    a = many(seq());

pgw probe answers to the text x:

    P6 empty repetition
"#
}

fn text_of_t1() -> &'static str {
    r#"T1 not UTF-8

The place is that of the first byte that belongs to no character.
"#
}

fn text_of_t2() -> &'static str {
    r#"T2 corpus too long

It has more than 16,777,216 bytes. Put the cases into several files: `pgw test`
takes as many as you like.
"#
}

fn text_of_t3() -> &'static str {
    r#"T3 text before the first case

Before the first case stand only blank lines and comments. Perhaps the line
that begins the case has fewer than three `=`, or no blank behind them.
"#
}

fn text_of_t4() -> &'static str {
    r#"T4 text behind what is wanted

What is wanted ends at the first blank line or comment, and this line comes
behind. Perhaps the next case begins with fewer than three `=`, or a comment
stands in the midst of what is wanted.
"#
}

fn text_of_t5() -> &'static str {
    r#"T5 case without a name

Put a name behind the `=`. Each case has one of its own.
"#
}

fn text_of_t6() -> &'static str {
    r#"T6 bad brackets

A bracket at the end of a name isn't closed, or names no rule. A name that is
to end so can have something behind the bracket.
"#
}

fn text_of_t7() -> &'static str {
    r#"T7 name twice

An earlier case has this name.
"#
}

fn text_of_t8() -> &'static str {
    r#"T8 text without an end

No line of as many `-` as the case has `=`, and of nothing else, comes behind
it.
"#
}

fn text_of_t9() -> &'static str {
    r#"T9 nothing wanted

Behind the text comes the next case, or the end of the file. Write what is to
come of the text: `accepted` if that doesn't matter, or `error`.
"#
}

fn text_of_v1() -> &'static str {
    r#"V1 not JSON

The bytes are no JSON, or arrays and objects stand in one another more than 127
deep.
"#
}

fn text_of_v2() -> &'static str {
    r#"V2 not a certificate

They are JSON, but not shaped as a certificate of this grammar.
"#
}

fn text_of_v3() -> &'static str {
    r#"V3 less is claimed than is so

`V3 RULE CONDITION` says that what is claimed of this rule is less than what
the claims make of its body.

The conditions of V3 are judged rule by rule, in the order of the file, and of
each rule in this order:

Condition `nullable`
    What has to be claimed of a rule: `true`, where its body can take nothing
    by what is claimed of the rules in it
Condition `first`
    What has to be claimed of a rule: each start that can begin its body, where
    what begins a rule in it is claimed
Condition `follow`
    What has to be claimed of a rule: each start that can follow a use of it,
    where what follows a rule whose body it stands in is claimed; for the start
    rule the end too
Condition `rank`
    What has to be claimed of a rule: more than is claimed of each rule that
    its body may begin with, where which of them can take nothing is claimed
Condition `h`
    What has to be claimed of a rule: no less than what its body costs, where
    the cost of each rule in it is claimed

    $ printf 'start a; a = choice(a, string("x"));' > g; echo '{"rules":[{"first":[{"class":[[120,120]]}],"follow":["end"],"h":100,"nullable":false,"rank":0,"rule":"a"}]}' > c; ./pgw verify g c
    V3 a rank
"#
}

fn text_of_v4() -> &'static str {
    r#"V4 a condition is broken

`V4 Cn RULE:NODE` says that by what is claimed this condition of the check is
broken at this form: FINDINGS.md has each.
"#
}

fn text_of_w1() -> &'static str {
    r#"W1 cannot write

Standard output takes no more: a disk is full, or nobody reads what is printed,
as behind `| head`. A part of the result may have been written. Status 2.
"#
}

fn text_of_x1() -> &'static str {
    r#"X1 cannot read

The text's file can't be read to its end, or has over 4,194,304 bytes, more
than the longest text can have. Status 2.
"#
}

fn text_of_y1() -> &'static str {
    r#"Y1 item doesn't fit

The next item is none that the form there can take: of another kind, an
alternative that it hasn't, operators of which no tree fits the table. Or a
rule is entered again before anything was taken.
"#
}

fn text_of_y2() -> &'static str {
    r#"Y2 text doesn't fit

What a form asks for doesn't stand there.
"#
}

fn text_of_y3() -> &'static str {
    r#"Y3 text or items left over

The start rule ended before the text or the trail did.
"#
}

fn text_of_y4() -> &'static str {
    r#"Y4 declaration not admitted

The text declares an operator that the table doesn't admit.
"#
}
