//! What each call makes of the program.
use crate::build::{compound, program};
use dice_base::Name;
use pascal_tree::copy_program;
use sqlite_items::Boxed;
use std::test::Fail;
use tree_listing::{list_program, list_statement};
use tree_names::{name_stmt, new_names, number_program};

const NAMED: &str = "     1 program all ( output ) ;
       label
     2   7 ;
       const
     3   c = - 1 ;
       type
     4   t = packed array [ t , ( a , b ) , 1 .. 9 , ^ t ] of set of record a , b : t end ;
       var
     5   a , b : t ;
     6   function f ( var a , b : t ; a , b : t ) : t ; forward ;
     7   procedure p ;
     8     begin end ;
     9   begin
    10     7 : a [ 1 ] . f ^ := - 1 * a [ 1 ] . f ^ div 'it''s' mod nil and f ( 1 : 2 ) and [ 1 .. 2 , 3 ] and ( 4 ) and not 5 or 2 in 3 ;
    11     p ( 1 : 2 ) ;
    12     goto 7 ;
    13     if 1 then
    14
           else
    15       ;
    16     if 1 then
    17       ;
    18     case 1 of + c , 'x' :
    19
           end ;
    20     while 1 do
    21       ;
    22     repeat
    23
           until 1 ;
    24     for i := 2 downto 1 do
    25       ;
    26     with a [ 1 ] . f ^ do
    27
         end .
";

#[test]
fn a_program(rt: HostRuntime) -> Result<(), Fail> {
    let alloc = rt.alloc();
    let tree = Boxed::new(alloc, program(alloc)?)?;
    let numbered = Boxed::new(alloc, number_program(alloc, tree.get())?)?;
    let copy = Boxed::new(alloc, copy_program(alloc, numbered.get())?)?;
    let named = list_program(alloc, copy.get(), true)?;
    let plain = list_program(alloc, copy.get(), false)?;
    let unnamed = list_program(alloc, tree.get(), false)?;
    let is = [
        named.bytes() == NAMED.as_bytes(),
        plain.bytes() == unnamed.bytes(),
    ];
    assert_eq!(rt; is, [true; 2]);
    Ok(())
}

const STATEMENT: &str = "begin
  7 : a [ 1 ] . f ^ := - 1 * a [ 1 ] . f ^ div 'it''s' mod nil and f ( 1 : 2 ) and [ 1 .. 2 , 3 ] and ( 4 ) and not 5 or 2 in 3 ;
  p ( 1 : 2 ) ;
  goto 7 ;
  if 1 then
  else
    ;
  if 1 then
    ;
  case 1 of + c , 'x' :
  end ;
  while 1 do
    ;
  repeat
  until 1 ;
  for i := 2 downto 1 do
    ;
  with a [ 1 ] . f ^ do
end
";

#[test]
fn a_statement(rt: HostRuntime) -> Result<(), Fail> {
    let alloc = rt.alloc();
    let stmt = Boxed::new(alloc, compound(alloc)?)?;
    let count = new_names(stmt.get());
    let (named, next) = name_stmt(alloc, Name(5), stmt.get(), 60)?;
    let named = Boxed::new(alloc, named)?;
    let text = list_statement(alloc, named.get())?;
    let is = [
        count == 18,
        next == 78,
        named.get().name.0 == 5,
        text.bytes() == STATEMENT.as_bytes(),
    ];
    assert_eq!(rt; is, [true; 4]);
    Ok(())
}
