//! What a module has beside the grammar: trees, and the forms that the library hasn't.

use crate::imports::Library;

/// Something that the module defines behind the grammar.
#[derive(Clone, Copy, PartialEq, Eq)]
pub(crate) enum Helper {
    One,
    Leaf,
    Text,
    Skip,
    Local,
    Node,
    Labelled,
    Flat,
    Joined,
    Link,
    Expression,
    Declaration,
    Operator,
    Eat,
    Refuse,
    Word,
}

/// All of them, in the order in which they are printed.
pub(crate) const HELPERS: [Helper; 16] = [
    Helper::One,
    Helper::Leaf,
    Helper::Text,
    Helper::Skip,
    Helper::Local,
    Helper::Node,
    Helper::Labelled,
    Helper::Flat,
    Helper::Joined,
    Helper::Link,
    Helper::Word,
    Helper::Expression,
    Helper::Operator,
    Helper::Declaration,
    Helper::Eat,
    Helper::Refuse,
];

/// All names of modules: those of helpers, of what stands for the item of operators, and of variables, which have an apostrophe, so that rules can
/// have names of one letter.
const OF_MODULE: [&str; 57] = [
    "one",
    "leaf",
    "text",
    "skip",
    "local",
    "node",
    "labelled",
    "flat",
    "joined",
    "link",
    "expr",
    "declare",
    "operator",
    "word",
    "eat",
    "refuse",
    "parseText",
    "initialTable",
    "isOperatorCharacter",
    "isGap",
    "reservedSymbols",
    "mostOperators",
    "refusal",
    "between'",
    "builder'",
    "c'",
    "declared'",
    "entries'",
    "entry'",
    "from'",
    "gap'",
    "head'",
    "infix'",
    "k'",
    "kids'",
    "l'",
    "label'",
    "leaves'",
    "n'",
    "o'",
    "opened'",
    "p'",
    "postfix'",
    "prefix'",
    "r'",
    "reserved'",
    "rest'",
    "role'",
    "roles'",
    "s'",
    "separator'",
    "symbol'",
    "t'",
    "table'",
    "term'",
    "to'",
    "word'",
];

/// Whether a module has this name itself.
pub(crate) fn is_of_module(name: &str) -> bool {
    OF_MODULE.iter().any(|there| *there == name)
}

impl Helper {
    pub(crate) fn name(self) -> &'static str {
        match self {
            Helper::One => "one",
            Helper::Leaf => "leaf",
            Helper::Text => "text",
            Helper::Skip => "skip",
            Helper::Local => "local",
            Helper::Node => "node",
            Helper::Labelled => "labelled",
            Helper::Flat => "flat",
            Helper::Joined => "joined",
            Helper::Link => "link",
            Helper::Expression => "expr",
            Helper::Declaration => "declare",
            Helper::Operator => "operator",
            Helper::Eat => "eat",
            Helper::Refuse => "refuse",
            Helper::Word => "word",
        }
    }

    /// The helpers that it uses.
    pub(crate) fn needs(self) -> &'static [Helper] {
        match self {
            Helper::Labelled => &[Helper::Node],
            Helper::Expression => &[Helper::Operator],
            Helper::Operator | Helper::Word => &[Helper::Eat, Helper::Refuse],
            Helper::Declaration => &[Helper::Node, Helper::Eat, Helper::Refuse],
            Helper::One
            | Helper::Leaf
            | Helper::Text
            | Helper::Skip
            | Helper::Local
            | Helper::Node
            | Helper::Flat
            | Helper::Joined
            | Helper::Link
            | Helper::Eat
            | Helper::Refuse => &[],
        }
    }

    /// What it imports.
    pub(crate) fn imports(self) -> &'static [(Library, &'static str)] {
        match self {
            Helper::Text => &[
                (Library::Parsec, "getInput"),
                (Library::Parsec, "getPosition"),
                (Library::Positions, "updatePosChar"),
            ],
            Helper::Local => &[(Library::Parsec, "getState"), (Library::Parsec, "putState")],
            Helper::Expression => &[
                (Library::Parsec, "getState"),
                (Library::Expressions, "Assoc (..)"),
                (Library::Expressions, "buildExpressionParser"),
            ],
            Helper::Operator => &[(Library::Parsec, "getInput"), (Library::Control, "when")],
            Helper::Declaration => &[
                (Library::Parsec, "(<?>)"),
                (Library::Parsec, "getInput"),
                (Library::Parsec, "getState"),
                (Library::Parsec, "putState"),
                (Library::Parsec, "parserFail"),
                (Library::Parsec, "satisfy"),
                (Library::Control, "when"),
                (Library::Characters, "isAsciiLower"),
                (Library::Characters, "isDigit"),
            ],
            Helper::Eat => &[
                (Library::Parsec, "anyChar"),
                (Library::Parsec, "count"),
                (Library::Control, "when"),
                (Library::Control, "void"),
            ],
            Helper::Refuse => &[
                (Library::Parsec, "satisfy"),
                (Library::Parsec, "parserZero"),
            ],
            Helper::Word => &[
                (Library::Parsec, "getInput"),
                (Library::Parsec, "unexpected"),
            ],
            Helper::One
            | Helper::Leaf
            | Helper::Skip
            | Helper::Node
            | Helper::Labelled
            | Helper::Flat
            | Helper::Joined
            | Helper::Link => &[],
        }
    }

    /// Its lines, with an empty one before them.
    pub(crate) fn text(self) -> &'static str {
        match self {
            Helper::One => ONE,
            Helper::Leaf => LEAF,
            Helper::Text => TEXT,
            Helper::Skip => SKIP,
            Helper::Local => LOCAL,
            Helper::Node => NODE,
            Helper::Labelled => LABELLED,
            Helper::Flat => FLAT,
            Helper::Joined => JOINED,
            Helper::Link => LINK,
            Helper::Expression => EXPRESSION,
            Helper::Declaration => DECLARATION,
            Helper::Operator => OPERATOR,
            Helper::Eat => EAT,
            Helper::Refuse => REFUSE,
            Helper::Word => WORD,
        }
    }
}

const ONE: &str = r#"
-- One character, as a leaf.
one :: Parser Char -> Parser [Tree]
one p' = (\c' -> [Leaf [c']]) <$> p'
"#;

const LEAF: &str = r#"
-- What a parser read, as a leaf.
leaf :: Parser String -> Parser [Tree]
leaf p' = (\s' -> [Leaf s']) <$> p'
"#;

const TEXT: &str = r#"
-- One leaf with all that was read, whose time grows with that and not with the rest of the input.
text :: Parser a -> Parser [Tree]
text p' = do
  rest' <- getInput
  from' <- getPosition
  _ <- p'
  to' <- getPosition
  return [Leaf (between' from' to' rest')]
  where
    between' s' t' (c' : r') | s' /= t' = c' : between' (updatePosChar s' c') t' r'
    between' _ _ _ = ""
"#;

const SKIP: &str = r#"
-- No trees of what was read.
skip :: Parser a -> Parser [Tree]
skip p' = [] <$ p'
"#;

const LOCAL: &str = r#"
-- Operators that are declared in it are in force up to its end.
local :: Parser a -> Parser a
local p' = do
  table' <- getState
  t' <- p'
  putState table'
  return t'
"#;

const NODE: &str = r#"
-- One node with a label around trees.
node :: String -> [Tree] -> [Tree]
node label' kids' = [Node label' kids']
"#;

const LABELLED: &str = r#"
-- A node with a label of its own, whatever the symbol.
labelled :: String -> String -> [Tree] -> [Tree]
labelled label' _ = node label'
"#;

const FLAT: &str = r#"
-- A list in which lists among the trees give way to their kids.
flat :: [Tree] -> [Tree]
flat kids' = [Node "list" (concatMap opened' kids')]
  where
    opened' (Node "list" t') = t'
    opened' t' = [t']
"#;

const JOINED: &str = r#"
-- One leaf with the texts of all leaves.
joined :: [Tree] -> [Tree]
joined kids' = [Leaf (concatMap leaves' kids')]
  where
    leaves' (Leaf s') = s'
    leaves' (Node _ t') = concatMap leaves' t'
"#;

const LINK: &str = r#"
-- What a separator of a chain makes of the operands beside it: its own trees stand between theirs.
link :: Builder -> Parser [Tree] -> Parser ([Tree] -> [Tree] -> [Tree])
link builder' separator' = (\o' l' r' -> builder' "" (l' ++ o' ++ r')) <$> separator'
"#;

const EXPRESSION: &str = r#"
-- Operators of the table that is in force where it begins, around a term. The builders are those of
-- infix, prefix and postfix operators.
expr :: Builder -> Builder -> Builder -> Parser [Tree] -> Parser [Tree]
expr infix' prefix' postfix' term' = do
  table' <- getState
  buildExpressionParser (filter (not . null) [entries' k' table' | k' <- [9, 8 .. 0]]) term'
  where
    entries' k' table' = [entry' role' symbol' | Operator role' n' symbol' <- table', n' == k']
    entry' role' symbol' = case role' of
      Infixl -> E.Infix (between' symbol' <$ operator symbol') AssocLeft
      Infixr -> E.Infix (between' symbol' <$ operator symbol') AssocRight
      Infix -> E.Infix (between' symbol' <$ operator symbol') AssocNone
      Prefix -> E.Prefix (prefix' symbol' <$ operator symbol')
      Postfix -> E.Postfix (postfix' symbol' <$ operator symbol')
    between' symbol' l' r' = infix' symbol' (l' ++ r')
"#;

const OPERATOR: &str = r#"
-- An operator is the longest run of operator characters that stands there, with the gap behind it.
operator :: String -> Parser ()
operator symbol' = do
  (s', rest') <- span isOperatorCharacter <$> getInput
  when (s' /= symbol') refuse
  eat (length s' + length (takeWhile isGap rest'))
"#;

const DECLARATION: &str = r#"
-- A declaration of an operator, which is in force from its end on.
declare :: (Char -> Bool) -> Parser [Tree]
declare p' = do
  word' <- takeWhile isAsciiLower <$> getInput
  rest' <- drop (length word') <$> getInput
  case lookup word' roles' of
    Just role' | not (any p' (take 1 rest')) -> eat (length word') >> gap' >> declared' word' role'
    _ -> refuse <?> "declaration"
  where
    roles' =
      [ ("infixl", Infixl), ("infixr", Infixr), ("infix", Infix)
      , ("prefix", Prefix), ("postfix", Postfix) ]
    gap' = getInput >>= eat . length . takeWhile isGap
    declared' word' role' = do
      n' <- satisfy isDigit <?> "precedence"
      gap'
      symbol' <- takeWhile isOperatorCharacter <$> getInput
      when (null symbol') (refuse <?> "operator symbol")
      table' <- getState
      let o' = Operator role' (fromEnum n' - fromEnum '0') symbol'
      case refusal table' o' of
        Just r' -> parserFail ("operator " ++ show symbol' ++ " not admitted: " ++ r')
        Nothing -> return ()
      eat (length symbol')
      gap'
      putState (table' ++ [o'])
      return (node "declare" [Leaf word', Leaf [n'], Leaf symbol'])

-- Why a table doesn't admit an operator.
refusal :: [Operator] -> Operator -> Maybe String
refusal table' (Operator role' _ symbol')
  | length symbol' > 16 = Just "A1"
  | symbol' `elem` reservedSymbols = Just "A2"
  | role' == Prefix, or [s' == symbol' | Operator Prefix _ s' <- table'] = Just "A3"
  | role' /= Prefix, or [s' == symbol' | Operator r' _ s' <- table', r' /= Prefix] = Just "A4"
  | length table' >= mostOperators = Just "A5"
  | otherwise = Nothing
"#;

const EAT: &str = r#"
-- Takes so many characters, and leaves no message behind, as a repetition would.
eat :: Int -> Parser ()
eat n' = when (n' > 0) (void (count n' anyChar))
"#;

const REFUSE: &str = r#"
-- Takes nothing, and names the character that stands there.
refuse :: Parser a
refuse = satisfy (const False) >> parserZero
"#;

const WORD: &str = r#"
-- A word: a character of its heads and all characters of its rest behind that, unless it is reserved.
word :: (Char -> Bool) -> (Char -> Bool) -> [String] -> Parser String
word head' rest' reserved' = do
  s' <- getInput
  case s' of
    c' : t'
      | head' c', let word' = c' : takeWhile rest' t' ->
          if word' `elem` reserved' then unexpected ("reserved word " ++ show word') else word' <$ eat (length word')
    _ -> refuse
"#;
